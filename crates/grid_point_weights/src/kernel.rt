// What a call asks last and does then, for the crate above that asks more of the table.
ghost use Rattle.std.specs.Prelude.{◌≡◌, length};
ghost use Rattle.ask.specs.Ask.{first_no};
ghost use Rattle.grid_point_weights.specs.Weights.{weights_of_all};
ghost use Rattle.grid_point_weights.specs.Calls.{call_of, study_of, grid_point_questions};

use crate::GridPointStudy;
pub use crate::asks::ask_rest;
use crate::tested::TestedStudy;
use tetrahedron_sort::Rows;

// The weights of a study whose questions are all answered yes.
pub fn weigh(study: GridPointStudy, grid_points: &[i64], iw: &mut [f64])
    requires { first_no (grid_point_questions (call_of study grid_points.now) (length iw.old)) ≡ 0 }
    ensures { iw.new ≡ weights_of_all (study_of (call_of study.entry grid_points.now)) grid_points.now }
{
    let d_diag = study.grid.d_diag;
    let rows = Rows {
        count: study.relative_grid_address.len() / 12,
    };
    let tested = TestedStudy {
        lent: study,
        grid: bzgrid_lookup::kernel::grid_of(study.grid.bz_grid_type, d_diag),
        bands: numbers::kernel::magnitude(study.num_band),
        rows,
    };
    crate::fill::fill_all(&tested, grid_points, iw);
}
