// Question 11 of the weights at grid points: frequencies of irreducible points, and the map to them.
ghost use Rattle.std.specs.Prelude.{◌≡◌, ◌<◌};
ghost use Rattle.questions.specs.Irreducible.{is_irreducible_map, are_irreducible};

use numbers::kernel;

// "P map values 0 to R-1".
#[tactic(auto, unfolding(crate::specs::Irreducible::is_irreducible_map))]
fn irreducible_map_ok(p: usize, r: usize, gp2irgp_map: &[i64]) -> bool
    ensures { result ≡ is_irreducible_map p r gp2irgp_map.now }
{
    (gp2irgp_map.len() == p) & question_grids::kernel::steps::grid_points_ok(r, gp2irgp_map)
}

// Question 11, of R, the frequencies and the map.
#[tactic(auto, unfolding(crate::specs::Irreducible::are_irreducible))]
pub fn irreducible_ok(
    num_ir: i64,
    bands: usize,
    p: usize,
    frequencies: &[f64],
    gp2irgp_map: &[i64],
) -> bool
    requires { 0 < bands }
    ensures { result ≡ are_irreducible num_ir bands p frequencies.now gp2irgp_map.now }
{
    let r = kernel::magnitude(num_ir);
    (((0 <= num_ir) & (1 <= r))
        & question_values::kernel::counts::length_ok(r, bands, frequencies.len()))
        & (question_values::kernel::frequencies::frequencies_ok(frequencies)
            & irreducible_map_ok(p, r, gp2irgp_map))
}
