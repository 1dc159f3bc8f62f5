// A sheet's content out of standard input, and what a replay of its calls counts and prints.

#![tactic(auto)]

pub mod content;
pub mod counts;
pub mod open;
