// The questions of document 01 about single numbers and lists: counts, lengths, ranges, types, averages.

#![tactic(auto)]

pub mod kernel;
