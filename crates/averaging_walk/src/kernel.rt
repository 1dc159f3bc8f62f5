// For the crates above.
pub mod block;
mod flags;
pub mod walk;
mod weights;
