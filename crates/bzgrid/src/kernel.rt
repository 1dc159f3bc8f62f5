// The neighbours of one point and of many, and the questions of both calls after those on the grid.
ghost use Rattle.std.specs.Prelude.{◌≡◌, true, ◌*◌, ◌<◌, length};
ghost use Rattle.ask.specs.Ask.{first_no};
ghost use Rattle.ask.specs.Refusals.{answer_of};
ghost use Rattle.question_grids.specs.Grids.{triples_in};
ghost use Rattle.question_grids.specs.Steps.{are_grid_points};
ghost use Rattle.bzgrid.specs.Lists.{neighbours_of, neighbours_of_all};
ghost use Rattle.bzgrid.specs.Calls.{step_questions, steps_questions};

use ask::Refusal;
use bzgrid_lookup::TestedGrid;
use question_grids::Triples;
use question_grids::kernel::steps;
use question_values::kernel::counts;

// The neighbours of point g, one for each step.
pub fn fill_neighbours(out: &mut [i64], g: usize, steps: Triples, grid: TestedGrid)
    requires { (g < triples_in grid.addresses.now) × (length out.old ≡ triples_in steps.numbers.now) }
    ensures { out.new ≡ neighbours_of grid.entry.grid grid.entry.addresses.now grid.entry.gp_map.now steps.entry.numbers.now g }
{
    for j in 0..out.len() {
        let v = grid.neighbour(steps, g, j);
        out[j] = v as i64;
    }
}

// The neighbours of each of the points in turn. The parts are cut by index: behind one that `chunks_mut` lends a proof knows its length alone.
pub fn fill_many(out: &mut [i64], grid_points: &[i64], steps: Triples, grid: TestedGrid)
    requires { (are_grid_points (triples_in grid.addresses.now) grid_points.now ≡ true) × (length out.old ≡ length grid_points.now * triples_in steps.numbers.now) }
    ensures { out.new ≡ neighbours_of_all grid.entry.grid grid.entry.addresses.now grid.entry.gp_map.now steps.entry.numbers.now grid_points.now }
{
    let size = steps.numbers.len() / 3;
    for i in 0..grid_points.len() {
        let g = numbers::kernel::magnitude_at(grid_points, i);
        let start = i * size;
        fill_neighbours(&mut out[start..start + size], g, steps, grid);
    }
}

// The questions of the calls, after those on the grid. p and out_len count what is not read here: a list in their place would ask more of the caller.
#[tactic(auto, using(list_laws::proofs::BoolLaws::yes_of, list_laws::proofs::BoolLaws::no_of, question_grids::proofs::StepLaws::step_laws), unfolding(ask::specs::Ask::first_no))]
pub fn ask_points(
    grid_points: &[i64],
    steps: &[i64],
    p: usize,
    out_len: usize,
) -> Result<(), Refusal>
    ensures { result ≡ answer_of (first_no (steps_questions steps.now grid_points.now p out_len)) tt }
{
    if !steps::steps_ok(steps) {
        return Err(Refusal::Table);
    }
    if !counts::triplet_count_ok(grid_points.len()) {
        return Err(Refusal::Counts);
    }
    if !steps::grid_points_ok(p, grid_points) {
        return Err(Refusal::GridPoints);
    }
    if !counts::length_ok(grid_points.len(), steps.len() / 3, out_len) {
        return Err(Refusal::Lengths);
    }
    Ok(())
}
