// The calls of a list, one after the other, on a sheet and with what all calls take: made once, and lent.

#![tactic(auto)]

pub mod kernel;
mod list;

pub use list::CallsMut;
