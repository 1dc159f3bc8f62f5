// The weight over rows as they are given.
ghost use Rattle.std.specs.Prelude.{◌≡◌, ◌/◌, ◌^◌, ◌≤◌, length};
ghost use Rattle.tetrahedron_method.specs.Weight.{weight_of};

use crate::WeightFunction;
use crate::kernel::row::row_weight;

// The weight at omega over the rows of a flat list, each four values: so many at most that a float holds their count.
#[tactic(auto, using(crate::proofs::RowLaws::chunk_row), unfolding(crate::specs::Weight::sum_of, crate::specs::Weight::weight_of))]
pub fn get_integration_weight(function: WeightFunction, omega: f64, omegas: &[f64]) -> f64
    requires { length omegas.now / 4 ≤ 2 ^ 53 }
    ensures { result ≡ weight_of function omega omegas.now (length omegas.now / 4) }
{
    let (rows, _) = omegas.as_chunks::<4>();
    let mut sum = 0.0;
    for row in rows {
        sum = sum + row_weight(function, omega, *row);
    }
    sum / (rows.len() as f64 / 4.0)
}
