// Comparing an answer with a stored one.

#![tactic(auto)]

pub mod kernel;
