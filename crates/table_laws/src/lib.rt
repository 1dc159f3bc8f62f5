// What the answers of questions 23 to 25 say of a table, and that the four tables pass: proofs/. No code.

#![tactic(auto)]
