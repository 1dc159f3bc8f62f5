// What a replay counts and prints.

#![tactic(auto)]

pub mod blocks;
pub mod cases;
pub mod kinds;
