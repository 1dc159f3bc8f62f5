// What a caller of another language is told: a status, 0 or the number of the first question that is answered no, and the value behind a
// reference, which a refusal leaves as it was.

#![tactic(auto)]

pub mod choice;
pub mod grids;
pub mod sheets;
pub mod store;
pub mod tetrahedra;
pub mod triplets;
