// The listing of a sheet, and the line of a refusal, as bytes.

#![tactic(auto)]

pub mod kernel;
