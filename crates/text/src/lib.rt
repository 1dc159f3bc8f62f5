// Readers of bytes: fields that spell whole numbers or the bits of floats, and the places where a byte stands.

#![tactic(auto)]

mod field;
pub mod kernel;

pub use field::Field;
