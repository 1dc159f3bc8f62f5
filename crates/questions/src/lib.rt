// The questions of document 01 about a study, each a test whose contract is its definition in specs/.

#![tactic(auto)]

pub mod kernel;
