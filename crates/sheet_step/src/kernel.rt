// For the crates above.
pub mod asks;
