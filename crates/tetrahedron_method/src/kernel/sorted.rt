// Rows put in order once, and the weights over them at many points.
ghost use Rattle.std.specs.Prelude.{◌≡◌};
ghost use Rattle.tetrahedron_method.specs.Sorted.{InOrder, sorted_weight};

use crate::WeightFunction;
use crate::kernel::row::sorted_row_weight;
use tetrahedron_sort::Rows;
use tetrahedron_sort::kernel::sort_omegas;

// Each row of a work area put in order, and the place of its first value told. Rows by their index: of `as_chunks_mut`, std does not say what the array
// ends as.
pub fn sort_rows(area: &mut [f64; 384], places: &mut [usize; 96], rows: Rows)
    ensures { InOrder area.old rows.count area.new places.new }
{
    for k in 0..rows.count {
        let at = k * 4;
        let row = sort_omegas([area[at], area[at + 1], area[at + 2], area[at + 3]]);
        area[at] = row.omegas[0];
        area[at + 1] = row.omegas[1];
        area[at + 2] = row.omegas[2];
        area[at + 3] = row.omegas[3];
        places[k] = row.place;
    }
}

// The weight at omega over rows that are in order.
#[tactic(auto, unfolding(crate::specs::Sorted::sorted_sum, crate::specs::Sorted::sorted_weight))]
pub fn sorted_weight(
    function: WeightFunction,
    omega: f64,
    area: &[f64; 384],
    places: &[usize; 96],
    rows: Rows,
) -> f64
    ensures { result ≡ sorted_weight function omega area.now places.now rows.count }
{
    let (omegas, _) = area.as_chunks::<4>();
    let mut sum = 0.0;
    for k in 0..rows.count {
        sum = sum + sorted_row_weight(function, places[k], omega, omegas[k]);
    }
    sum / (rows.count as f64 / 4.0)
}
