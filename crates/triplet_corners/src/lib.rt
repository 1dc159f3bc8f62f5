// The corners of a triplet: the numbers of the neighbours of its second and its third point.

#![tactic(auto)]

pub mod kernel;
