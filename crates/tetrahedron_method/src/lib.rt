// The tetrahedron method: integration weights from the vertex values of rows of tetrahedra.

#![tactic(auto)]

ghost use Rattle.std.specs.Prelude.{◌≡◌};
ghost use Rattle.tetrahedron_method.specs.Answer.{integration_weight_answer};

pub use ask::Refusal;
pub use relative_grid_address::{NeighbourTable, all_relative_grid_address, relative_grid_address};

pub mod kernel;

// Which weight: I times the density g, or J times the number of states n.
#[derive(Clone, Copy)]
pub enum WeightFunction {
    I,
    J,
}

// The integration weight at one omega over directly given vertices: 24, 48, 72 or 96 rows of four values.
// Questions 7 and 11 are asked.
#[tactic(auto, using(list_laws::proofs::BoolLaws::yes_of, list_laws::proofs::BoolLaws::no_of), unfolding(ask::specs::Ask::first_no))]
pub fn integration_weight(
    omega: f64,
    tetrahedra_omegas: &[f64],
    function: WeightFunction,
) -> Result<f64, Refusal>
    ensures { result ≡ integration_weight_answer omega tetrahedra_omegas.now function }
{
    if !question_values::kernel::rows::vertices_ok(tetrahedra_omegas.len()) {
        return Err(Refusal::Table);
    }
    if !question_values::kernel::frequencies::points_ok(tetrahedra_omegas) {
        return Err(Refusal::Frequencies);
    }
    if !question_values::kernel::frequencies::point_ok(omega) {
        return Err(Refusal::Frequencies);
    }
    Ok(kernel::weight::get_integration_weight(function, omega, tetrahedra_omegas))
}
