// The run of a named piece on a sheet whose questions 3 to 13 say yes: it asks its own, then works.

#![tactic(auto)]

pub mod kernel;
