// What a neighbour table must keep to be taken from a customer, beyond question 7: questions 23 to 25.

#![tactic(auto)]

pub mod kernel;
