// The marks of a sheet.

#![tactic(auto)]

pub mod kernel;
