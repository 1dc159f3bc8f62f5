// Generalized regular grid helpers.

#![tactic(auto)]

ghost use Rattle.std.specs.Prelude.{◌≡◌};
ghost use Rattle.grgrid.specs.Index.{index_answer};

pub use ask::Refusal;
use numbers::Address;

pub mod kernel;

// Map a grid address to its single-grid-point index. Question 4 is asked, with mesh numbers from 1 to 256.
#[tactic(auto, using(question_grids::proofs::GridLaws::mesh_laws), unfolding(ask::specs::Ask::first_no))]
pub fn grid_index_from_address(address: [i64; 3], d_diag: [i64; 3]) -> Result<i64, Refusal>
    ensures { result ≡ index_answer address d_diag }
{
    if !question_grids::kernel::grid::mesh_ok(256, d_diag) {
        return Err(Refusal::Mesh);
    }
    let mesh = numbers::kernel::mesh_of(d_diag);
    let index = kernel::grid_index(Address::from(address), mesh);
    Ok(index as i64)
}
