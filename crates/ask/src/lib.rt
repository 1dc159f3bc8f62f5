// Questions asked in their order, and the answer of a call: what it gives, or why it is refused.
#![tactic(auto)]

pub mod kernel;
mod refusal;

pub use refusal::Refusal;
