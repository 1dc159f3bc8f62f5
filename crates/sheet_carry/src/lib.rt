// The carry-on of the run sheet: all its open pieces.

#![tactic(auto)]

ghost use Rattle.std.specs.Prelude.{◌≡◌};
ghost use Rattle.triplet_study.specs.Lent.{study_of};
ghost use Rattle.sheet_tally.specs.Tallies.{runs_after};
ghost use Rattle.sheet_step.specs.Lent.{sheet_of, SameBuffers};
ghost use Rattle.sheet_step.specs.Steps.{carry, Did};
ghost use Rattle.sheet_turn.specs.Turns.{common_no};

use ask::Refusal;
use sheet_fill::{PreparedStudy, Work};
pub use sheet_step::SheetMut;
pub use sheet_tally::Tally;
use triplet_study::TestedStudy;
pub use triplet_study::{Shape, Study};

pub mod kernel;

// Runs all pieces marked 0, in ascending order; the worker's count goes up by their number. Questions 3 to 13, 21, and 20 for all runs of
// the call.
pub fn carry_on(
    study: Study,
    sheet: &mut SheetMut,
    tally: Tally,
    worker: i64,
) -> Result<Tally, Refusal>
    ensures did { Did (study_of study.entry) (sheet_of sheet.old tally.runs) (carry worker) result (sheet_of sheet.new (runs_after result tally.runs)) }
    ensures same { SameBuffers sheet.old sheet.new }
{
    let tested = sheet_step::kernel::asks::ask_common(
        study,
        sheet.weights.len(),
        sheet.flags.len(),
        sheet.marks(),
    )?;
    carry_tested(tested, sheet, tally, worker)
}

// The same where 3 to 13 said yes. Never put into its caller, for the reason that stands in sheet_run.
#[inline(never)]
fn carry_tested(
    tested: TestedStudy,
    sheet: &mut SheetMut,
    tally: Tally,
    worker: i64,
) -> Result<Tally, Refusal>
    requires common { common_no (study_of tested.study) (sheet_of sheet.old tally.runs) ≡ 0 }
    ensures did { Did (study_of tested.entry.study) (sheet_of sheet.old tally.runs) (carry worker) result (sheet_of sheet.new (runs_after result tally.runs)) }
    ensures same { SameBuffers sheet.old sheet.new }
{
    let second = triplet_corners::kernel::second_steps(tested.sizes.tp, tested.steps());
    let prepared = PreparedStudy::new(tested, &second);
    let mut work = Work::new(prepared);
    kernel::carry_asked(&mut work, sheet, tally, worker)
}
