// What the open count says of a computed sheet: proofs/ClosedLaws.antt and proofs/TopEdge.antt. No code.

#![tactic(auto)]
