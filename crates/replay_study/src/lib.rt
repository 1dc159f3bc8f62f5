// The records of a grid and of a study's values, the counts of a sheet, and the weight that a record asks for, for the programs that replay stored answers.

#![tactic(auto)]

pub mod counts;
pub mod function;
pub mod owned;
pub mod records;
