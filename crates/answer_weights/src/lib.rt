// A tested study's weights, computed and listed.

#![tactic(auto)]

pub mod kernel;
