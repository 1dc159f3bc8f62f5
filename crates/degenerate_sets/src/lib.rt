// The degenerate sets of an id list, and the walk over their blocks.

#![tactic(auto)]

pub mod kernel;
