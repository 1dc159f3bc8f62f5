// Weights of one row, of a list of rows, and of rows that are in order, for the crates above.
pub mod row;
pub mod sorted;
pub mod weight;
