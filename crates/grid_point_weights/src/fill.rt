// The weights of one grid point, and of each in turn.
ghost use Rattle.std.specs.Prelude.{◌≡◌, true, ◌*◌, ◌<◌, length};
ghost use Rattle.question_grids.specs.Grids.{triples_in};
ghost use Rattle.question_grids.specs.Steps.{are_grid_points};
ghost use Rattle.grid_point_weights.specs.Weights.{weights_of, weights_of_all};
ghost use Rattle.grid_point_weights.specs.Calls.{tested_study};

use crate::tested::TestedStudy;

// The weights of every band at every frequency point, around the grid point gp.
fn fill_point(study: &TestedStudy, gp: usize, iw: &mut [f64])
    requires { (gp < triples_in study.now.lent.grid.addresses.now) × (length iw.old ≡ length study.now.lent.frequency_points.now * study.now.bands) }
    ensures { iw.new ≡ weights_of (tested_study study.now) gp }
{
    let corners = crate::corners::corner_points(study, gp);
    let bands = study.bands;
    for band in 0..bands {
        crate::band::fill_band(study, &corners, band, iw);
    }
}

// The weights of each of the grid points in turn. Parts by their index: behind a chunk that is lent, a proof knows its length alone.
pub fn fill_all(study: &TestedStudy, grid_points: &[i64], iw: &mut [f64])
    requires { (are_grid_points (triples_in study.now.lent.grid.addresses.now) grid_points.now ≡ true) × (length iw.old ≡ length grid_points.now * (length study.now.lent.frequency_points.now * study.now.bands)) }
    ensures { iw.new ≡ weights_of_all (tested_study study.now) grid_points.now }
{
    let size = study.lent.frequency_points.len() * study.bands;
    for i in 0..grid_points.len() {
        let gp = numbers::kernel::magnitude_at(grid_points, i);
        let start = i * size;
        fill_point(study, gp, &mut iw[start..start + size]);
    }
}
