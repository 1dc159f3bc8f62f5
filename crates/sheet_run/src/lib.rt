// The run of a named piece of the run sheet.

#![tactic(auto)]

ghost use Rattle.std.specs.Prelude.{◌≡◌, ◌++◌};
ghost use Rattle.ask.specs.Ask.{first_no};
ghost use Rattle.triplet_study.specs.Lent.{study_of};
ghost use Rattle.sheet_tally.specs.Tallies.{runs_after, tally_questions};
ghost use Rattle.sheet_step.specs.Lent.{sheet_of, SameBuffers};
ghost use Rattle.sheet_step.specs.Steps.{run, piece_questions, Called, Did};
ghost use Rattle.sheet_turn.specs.Turns.{common_no};

use ask::Refusal;
use sheet_fill::{PreparedStudy, Work};
use sheet_step::kernel::asks;
pub use sheet_step::{NamedPiece, SheetMut};
pub use sheet_tally::Tally;
use triplet_study::TestedStudy;
pub use triplet_study::{Shape, Study};

// Runs a named piece: its entries at every point, in every channel, and its mark; the worker's count goes up by one. Questions 3 to 15,
// 21, 20.
pub fn run_piece(
    study: Study,
    sheet: &mut SheetMut,
    tally: Tally,
    worker: i64,
    piece: NamedPiece,
) -> Result<Tally, Refusal>
    ensures did { Did (study_of study.entry) (sheet_of sheet.old tally.runs) (run worker piece.triplet piece.b1 piece.b2) result
        (sheet_of sheet.new (runs_after result tally.runs)) }
    ensures same { SameBuffers sheet.old sheet.new }
{
    let tested = asks::ask_common(study, sheet.weights.len(), sheet.flags.len(), sheet.marks())?;
    asks::ask_run(tested.counted_sizes(), sheet.marks(), tally, worker, piece)?;
    Ok(run_tested(tested, sheet, tally, worker, piece))
}

// A run to which the questions said yes. A function of its own that is never put into its caller: room for the second copy and for the work areas is
// made where a function begins, and a refused run needs none.
#[inline(never)]
fn run_tested(
    tested: TestedStudy,
    sheet: &mut SheetMut,
    tally: Tally,
    worker: i64,
    piece: NamedPiece,
) -> Tally
    requires common { common_no (study_of tested.study) (sheet_of sheet.old tally.runs) ≡ 0 }
    requires own { first_no (piece_questions tested.sizes sheet.old.marks.now piece.triplet piece.b1 piece.b2 ++ tally_questions tally.runs worker 1) ≡ 0 }
    ensures called { Called (study_of tested.entry.study) (sheet_of sheet.old tally.runs) (run worker piece.triplet piece.b1 piece.b2) 0 (sheet_of sheet.new result.runs) }
    ensures same { SameBuffers sheet.old sheet.new }
{
    let second = triplet_corners::kernel::second_steps(tested.sizes.tp, tested.steps());
    let prepared = PreparedStudy::new(tested, &second);
    let mut work = Work::new(prepared);
    sheet_turn::kernel::run_accepted(&mut work, sheet, tally, worker, piece)
}
