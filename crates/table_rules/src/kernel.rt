// The questions on a table.
pub mod cones;
pub mod corners;
pub mod faces;
pub mod rows;
