// The tests, by what they are about.
pub mod irreducible;
