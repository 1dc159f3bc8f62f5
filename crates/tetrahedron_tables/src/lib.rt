// The four neighbour tables of the tetrahedron method, in the order of the main diagonals.

#![tactic(auto)]

pub mod kernel;
