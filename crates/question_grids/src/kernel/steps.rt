// Questions 7 and 10: the steps of a neighbour call, and grid points.
ghost use Rattle.std.specs.Prelude.{◌≡◌};
ghost use Rattle.question_grids.specs.Steps.{are_steps, are_grid_points};

use numbers::kernel;

// Question 7, of a neighbour call: one triple or more.
#[tactic(auto, unfolding(crate::specs::Steps::are_steps))]
pub fn steps_ok(relative_grid_address: &[i64]) -> bool
    ensures { result ≡ are_steps relative_grid_address.now }
{
    crate::kernel::grid::triples_ok(relative_grid_address) & (3 <= relative_grid_address.len())
}

// Question 10: each of the numbers is the number of one of `p` addresses.
#[tactic(auto, using(list_laws::proofs::BelowLaws::below_none, list_laws::proofs::BelowLaws::below_next), unfolding(crate::specs::Steps::are_grid_points))]
pub fn grid_points_ok(p: usize, grid_points: &[i64]) -> bool
    ensures { result ≡ are_grid_points p grid_points.now }
{
    let mut ok = true;
    for g in grid_points {
        ok &= kernel::is_below(*g, p);
    }
    ok
}
