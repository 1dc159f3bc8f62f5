// The book of demand 3: specs/Book.antt is the book, proofs/Demand3.antt the theorem over every list of calls. No function.

#![tactic(auto)]
