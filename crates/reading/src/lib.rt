// Bytes expected in a text.

#![tactic(auto)]

pub mod kernel;
