// Bytes written into a lent buffer.

#![tactic(auto)]

pub mod kernel;
