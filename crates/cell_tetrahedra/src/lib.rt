// The tetrahedra of a cell around a main diagonal, and that their rows are those of the neighbour tables: proofs/SameTables.antt. No code.

#![tactic(auto)]
