// What one row of four vertex values adds to a weight. The hints put it into the loops over rows (tetrahedron_formulas says why). A row's place and its
// values lie in two work areas: a struct of both would be made anew for each row.
ghost use Rattle.std.specs.Prelude.{◌≡◌};
ghost use Rattle.tetrahedron_method.specs.Weight.{or_zero, share_of, sorted_row_weight, row_weight};

use crate::WeightFunction;
use tetrahedron_formulas::kernel::choice::{density_share, states_share};
use tetrahedron_sort::kernel::sort_omegas;

// A product that is a NaN adds 0 instead.
#[tactic(auto, unfolding(crate::specs::Weight::or_zero))]
fn or_zero(product: f64) -> f64
    ensures { result ≡ or_zero product }
{
    if product != product { 0.0 } else { product }
}

// The weight of the vertex at a place in a tetrahedron with the sorted values v.
#[tactic(auto, unfolding(crate::specs::Weight::share_of))]
#[inline(always)]
fn share(function: WeightFunction, place: usize, omega: f64, v: [f64; 4]) -> f64
    ensures { result ≡ share_of function omega v place }
{
    let branch = tetrahedron_fractions::kernel::branch(omega, v);
    match function {
        WeightFunction::I => density_share(branch, place, omega, v),
        WeightFunction::J => states_share(branch, place, omega, v),
    }
}

// What a row with the sorted values v adds, the place of its first value known.
#[inline(always)]
pub fn sorted_row_weight(function: WeightFunction, place: usize, omega: f64, v: [f64; 4]) -> f64
    ensures { result ≡ sorted_row_weight function omega v place }
{
    or_zero(share(function, place, omega, v))
}

// What a row adds: its values are put in order first.
#[tactic(auto, unfolding(crate::specs::Weight::row_weight))]
pub fn row_weight(function: WeightFunction, omega: f64, row: [f64; 4]) -> f64
    ensures { result ≡ row_weight function omega row }
{
    let sorted = sort_omegas(row);
    sorted_row_weight(function, sorted.place, omega, sorted.omegas)
}
