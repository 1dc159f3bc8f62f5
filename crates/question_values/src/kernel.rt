// The tests, by what they are about.
pub mod averages;
pub mod counts;
pub mod frequencies;
pub mod rows;
