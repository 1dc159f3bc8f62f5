// The main diagonals, read only under a bound on the index.
pub use crate::diagonal::main_diagonal;
