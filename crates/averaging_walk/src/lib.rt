// The matrices of flags or of weights of one triplet averaged in place, block by block, one matrix for each frequency point.

#![tactic(auto)]

pub mod kernel;
