// For the crates above.
ghost use Rattle.std.specs.Prelude.{◌≡◌, ◌≤◌};
ghost use Rattle.std.specs.Int.Signed.{mag};
ghost use Rattle.ask.specs.Ask.{first_no};
ghost use Rattle.ask.specs.Refusals.{answer_of};
ghost use Rattle.triplet_study.specs.Study.{sizes_by, sizes_of};
ghost use Rattle.triplet_study.specs.Questions.{study_questions};
ghost use Rattle.triplet_study.specs.Tested.{Tested};
ghost use Rattle.triplet_study.specs.Lent.{study_of};

use crate::{Shape, Sizes, Study};
use ask::Refusal;

pub mod asks;

// Questions 3 to 11 on a study.
#[tactic(auto, unfolding(ask::specs::Ask::first_no))]
pub fn ask_study(study: Study) -> Result<(), Refusal>
    ensures { result ≡ answer_of (first_no (study_questions (study_of study.entry))) tt }
{
    question_grids::kernel::grid::ask_grid(study.grid())?;
    if !question_grids::kernel::tables::table_ok(study.relative_grid_address) {
        return Err(Refusal::Table);
    }
    asks::ask_values(study, study.addresses.len() / 3)
}

// The counts of a tested study, by the rows of its table, its points and its triplets.
pub fn sizes_of(shape: Shape, rows: usize, points: usize, triplets: usize) -> Sizes
    requires { (mag shape.num_band1 ≤ 64) × ((mag shape.num_band2 ≤ 64) × ((points ≤ 1024) × (triplets ≤ 65536))) }
    ensures { result ≡ sizes_by shape rows points triplets }
{
    let bz_grid_type = shape.bz_grid_type;
    let d_diag = shape.d_diag;
    let tp_type = shape.tp_type;
    let num_band1 = shape.num_band1;
    let num_band2 = shape.num_band2;
    let tp = triplet_types::kernel::tp_type_of(tp_type);
    let grid = bzgrid_lookup::kernel::grid_of(bz_grid_type, d_diag);
    let channels = tp.num_channels();
    let bands1 = numbers::kernel::magnitude(num_band1);
    let bands2 = numbers::kernel::magnitude(num_band2);
    let pairs = bands1 * bands2;
    let cells = triplets * points * pairs;
    Sizes {
        channels,
        triplets,
        points,
        bands1,
        bands2,
        pairs,
        cells,
        rows,
        tp,
        grid,
        shape,
    }
}

// The counts of a study that has passed questions 3 to 11.
pub fn sizes_of_passed(study: Study) -> Sizes
    requires { Tested (study_of study) }
    ensures { result ≡ sizes_of (study_of study.entry) }
{
    sizes_of(
        study.shape,
        study.relative_grid_address.len() / 12,
        study.frequency_points.len(),
        study.triplets.len() / 3,
    )
}
