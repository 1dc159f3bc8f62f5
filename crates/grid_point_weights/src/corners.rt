// The irreducible points of the corners around a grid point.
ghost use Rattle.std.specs.Prelude.{◌≡◌, ◌<◌};
ghost use Rattle.question_grids.specs.Grids.{triples_in};
ghost use Rattle.grid_point_weights.specs.Weights.{corners_of};
ghost use Rattle.grid_point_weights.specs.Calls.{tested_study};

use crate::tested::TestedStudy;

// One number for each corner of the table, at the start of a work area. Not triplet_corners' `fill_corner_numbers`: that keeps the grid
// point itself, without the map to irreducible points, and its crate stands beside this one.
pub fn corner_points(study: &TestedStudy, gp: usize) -> [usize; 384]
    requires { gp < triples_in study.now.lent.grid.addresses.now }
    ensures { result ≡ corners_of (tested_study study.now) gp }
{
    let grid = study.grid();
    let steps = study.steps();
    let gp2irgp_map = study.lent.gp2irgp_map;
    let mut corners = [0usize; 384];
    for j in 0..steps.numbers.len() / 3 {
        let v = grid.neighbour(steps, gp, j);
        corners[j] = numbers::kernel::magnitude_at(gp2irgp_map, v);
    }
    corners
}
