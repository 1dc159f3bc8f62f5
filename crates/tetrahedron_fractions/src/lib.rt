// The parts of the formulas of MacDonald, Vosko and Coleridge (1979), as coded in tetrahedron_method.rs: quotients, guards and the branch.

#![tactic(auto)]

pub mod kernel;
