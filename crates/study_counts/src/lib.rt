// How many weights a text may ask for: question 1 of document 01.

#![tactic(auto)]

pub mod kernel;
