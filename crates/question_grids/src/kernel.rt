// The tests, by what they are about.
pub mod grid;
pub mod steps;
pub mod tables;
