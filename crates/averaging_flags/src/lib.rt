#![tactic(auto)]

// What averaging over degenerate sets makes of flags, and its laws: see specs/ and proofs/.
