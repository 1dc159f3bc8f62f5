// For the crates above, on a tested study.
ghost use Rattle.std.specs.Prelude.{◌≡◌, true, ◌<◌, neg_ℤ, length};
ghost use Rattle.list_laws.specs.Signed.{within};
ghost use Rattle.question_grids.specs.Grids.{triples_in};
ghost use Rattle.triplet_corners.specs.Corners.{is_negated, step_of, copy_of, second_area, corner_numbers};

use bzgrid_lookup::TestedGrid;
use question_grids::Triples;
use triplet_study::TestedSteps;
use triplet_types::TpType;

// Whether the second copy is negated: for types 2 and 3, not for 4.
pub fn is_negated(tp: TpType) -> bool
    ensures { result ≡ is_negated tp }
{
    match tp {
        TpType::Type2 => true,
        TpType::Type3 => true,
        TpType::Type4 => false,
    }
}

// A tested component with its sign changed.
fn negate(z: i64) -> i64
    requires { within 4096 z ≡ true }
    ensures { result ≡ neg_ℤ z }
{
    0 - z
}

// A component of a copy, negated or as it is.
pub fn step_of(negated: bool, z: i64) -> i64
    requires { within 4096 z ≡ true }
    ensures { result ≡ step_of negated z }
{
    if negated { negate(z) } else { z }
}

// A copy of a table, negated or as it is: `copy_from_slice` could not negate. The type tells once, not for each number, whether it is.
pub fn fill_copy(out: &mut [i64], table: Triples, negated: bool)
    requires { length out.old ≡ length table.numbers.now }
    ensures { out.new ≡ copy_of negated table.entry.numbers.now }
{
    for k in 0..table.numbers.len() {
        out[k] = step_of(negated, table.numbers[k]);
    }
}

// The second copy of the steps, in front of an array.
pub fn second_steps(tp: TpType, steps: TestedSteps) -> [i64; 1152]
    ensures { result ≡ second_area tp steps.entry.triples.numbers.now }
{
    let n = steps.triples.numbers.len();
    let mut a = [0i64; 1152];
    fill_copy(&mut a[..n], steps.triples, is_negated(tp));
    a
}

// Fills an array with the numbers of the neighbours of the grid point `g`, one for each step, and zeros behind them. Not grid_point_weights'
// `corner_points`, which reads the map to irreducible points too.
pub fn fill_corner_numbers(a: &mut [usize; 384], grid: TestedGrid, steps: TestedSteps, g: usize)
    requires { g < triples_in grid.addresses.now }
    ensures { a.new ≡ corner_numbers grid.entry.grid grid.entry.addresses.now grid.entry.gp_map.now steps.entry.triples.numbers.now g }
{
    *a = [0; 384];
    for j in 0..steps.triples.numbers.len() / 3 {
        a[j] = grid.neighbour(steps.triples, g, j);
    }
}
