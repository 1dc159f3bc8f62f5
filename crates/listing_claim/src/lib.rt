// The listing and its reader, both directions: proofs/ReadBack.antt. No code.

#![tactic(auto)]
