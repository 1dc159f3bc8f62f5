// The number of states and the density of a tetrahedron, and the share of a vertex in each, by MacDonald, Vosko and Coleridge (1979) as coded in tetrahedron_method.rs: each formula takes the quotients that it reads.

#![tactic(auto)]

pub mod kernel;
