// Lists of calls on a run sheet: what all calls ask is asked once.

#![tactic(auto)]

ghost use Rattle.std.specs.Prelude.{length};
ghost use Rattle.triplet_study.specs.Lent.{study_of};
ghost use Rattle.sheet_tally.specs.Tallies.{runs_after};
ghost use Rattle.sheet_step.specs.Lent.{sheet_of, SameBuffers};
ghost use Rattle.sheet_calls.specs.Calls.{calls_of};
ghost use Rattle.sheet_play.specs.Outcomes.{outcome};
ghost use Rattle.sheet_list.specs.Play.{list_no, DidPlay};

pub use ask::Refusal;
pub use sheet_calls::Calls;
use sheet_play::CallsMut;
pub use sheet_step::SheetMut;
pub use sheet_tally::Tally;
pub use triplet_study::{Shape, Study};

mod along;
mod asks;

// Plays a list of calls, six numbers a call, on a sheet with any marks. Each call's
// number, 0 where it is done, goes to its place in `answers`, the sixteen counts after it to their places in `tallies`. The list itself asks question
// 12, of its own buffers; each call asks its questions, and 3 to 13 are asked once for all.
pub fn play(
    study: Study,
    sheet: &mut SheetMut,
    tally: Tally,
    calls: Calls,
    answers: &mut [u64],
    tallies: &mut [u64],
) -> Result<Tally, Refusal>
    ensures did { DidPlay (study_of study.entry) (sheet_of sheet.old tally.runs) (calls_of calls.entry.list.now calls.entry.ids.now)
        (list_no (length calls.entry.list.now) (length answers.old) (length tallies.old))
        answers.old tallies.old result (outcome (sheet_of sheet.new (runs_after result tally.runs)) answers.new tallies.new) }
    ensures same { SameBuffers sheet.old sheet.new }
{
    asks::ask_list(calls.list, answers, tallies)?;
    let mut list = CallsMut {
        calls,
        answers,
        tallies,
    };
    Ok(along::play_all(sheet, study, tally, &mut list))
}
