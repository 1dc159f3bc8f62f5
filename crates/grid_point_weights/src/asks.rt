// The questions, in their order.
ghost use Rattle.std.specs.Prelude.{◌≡◌, length};
ghost use Rattle.ask.specs.Ask.{first_no};
ghost use Rattle.ask.specs.Refusals.{answer_of};
ghost use Rattle.grid_point_weights.specs.Calls.{call_of, rest_asked, points_asked, grid_point_questions};

use crate::GridPointStudy;
use ask::Refusal;
use numbers::kernel::magnitude;
use question_values::kernel::counts;

// Questions 9 to 12.
#[tactic(auto, using(list_laws::proofs::BoolLaws::yes_of, list_laws::proofs::BoolLaws::no_of, crate::proofs::CallLaws::bands_some, crate::proofs::CallLaws::size_some, crate::proofs::CallLaws::size_few), unfolding(ask::specs::Ask::first_no))]
pub fn ask_rest(study: GridPointStudy, grid_points: &[i64], iw: &[f64]) -> Result<(), Refusal>
    ensures { result ≡ answer_of (first_no (rest_asked (call_of study.entry grid_points.now) (length iw.now))) tt }
{
    let num_band = study.num_band;
    let points = study.frequency_points;
    let p = study.grid.addresses.len() / 3;
    if !counts::counts_ok(num_band, num_band, points.len(), grid_points.len()) {
        return Err(Refusal::Counts);
    }
    if !question_grids::kernel::steps::grid_points_ok(p, grid_points) {
        return Err(Refusal::GridPoints);
    }
    let bands = magnitude(num_band);
    if !questions::kernel::irreducible::irreducible_ok(
        study.num_ir,
        bands,
        p,
        study.frequencies,
        study.gp2irgp_map,
    ) {
        return Err(Refusal::Frequencies);
    }
    if !question_values::kernel::frequencies::points_ok(points) {
        return Err(Refusal::Frequencies);
    }
    let size = points.len() * bands;
    if !counts::length_ok(grid_points.len(), size, iw.len()) {
        return Err(Refusal::Lengths);
    }
    Ok(())
}

// Questions 7 and 9 to 12.
#[tactic(auto, unfolding(ask::specs::Ask::first_no))]
fn ask_points(study: GridPointStudy, grid_points: &[i64], iw: &[f64]) -> Result<(), Refusal>
    ensures { result ≡ answer_of (first_no (points_asked (call_of study.entry grid_points.now) (length iw.now))) tt }
{
    if !question_grids::kernel::tables::table_ok(study.relative_grid_address) {
        return Err(Refusal::Table);
    }
    ask_rest(study, grid_points, iw)
}

// Questions 3 to 7 and 9 to 12.
pub fn ask_weights(study: GridPointStudy, grid_points: &[i64], iw: &[f64]) -> Result<(), Refusal>
    ensures { result ≡ answer_of (first_no (grid_point_questions (call_of study.entry grid_points.now) (length iw.now))) tt }
{
    question_grids::kernel::grid::ask_grid(study.grid)?;
    ask_points(study, grid_points, iw)
}
