#![tactic(auto)]

// What averaging over degenerate sets makes of weights, and its laws, some of them of flags too: see specs/ and proofs/.
