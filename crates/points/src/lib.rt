// The starred points of document 01: specs/Points.antt is the list, proofs/Starred.antt the proof.

#![tactic(auto)]
