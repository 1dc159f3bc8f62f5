// The choice of the neighbour table: the one whose main diagonal is shortest in the reciprocal lattice.

#![tactic(auto)]

ghost use Rattle.std.specs.Prelude.{◌≡◌};
ghost use Rattle.relative_grid_address.specs.Answer.{table_answer, all_tables};

pub use ask::Refusal;
use tetrahedron_tables::kernel::{table, tables};

mod diagonal;
pub mod kernel;

// A neighbour table: its number among the four, and its 288 numbers.
#[derive(Clone, Copy)]
pub struct NeighbourTable {
    pub index: usize,
    pub numbers: [i64; 288],
}

// The table whose main diagonal is shortest. Question 2.
#[tactic(auto, using(list_laws::proofs::BoolLaws::yes_of, list_laws::proofs::BoolLaws::no_of, crate::proofs::DiagonalLaws::main_diagonal_lt), unfolding(ask::specs::Ask::first_no, crate::specs::Answer::table_answer))]
pub fn relative_grid_address(rec_lattice: [[f64; 3]; 3]) -> Result<NeighbourTable, Refusal>
    ensures { result ≡ table_answer rec_lattice }
{
    if !common::kernel::lattice_ok(rec_lattice) {
        return Err(Refusal::Lattice);
    }
    let index = diagonal::get_main_diagonal(rec_lattice);
    let mut numbers = [0i64; 288];
    numbers.copy_from_slice(table(index));
    Ok(NeighbourTable { index, numbers })
}

// All four tables, one after the other.
#[tactic(auto, unfolding(crate::specs::Answer::all_tables))]
pub fn all_relative_grid_address() -> [i64; 1152]
    ensures { result ≡ all_tables }
{
    let mut all = [0i64; 1152];
    all.copy_from_slice(tables());
    all
}
