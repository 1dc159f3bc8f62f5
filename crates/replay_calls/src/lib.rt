// The calls on a sheet out of standard input: read, and made on a study that is read first.

#![tactic(auto)]

pub mod calls;
pub mod study;
#[cfg(test)]
mod tests;
