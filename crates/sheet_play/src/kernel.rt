// For the crate of the list, on a sheet whose questions 3 to 13 say yes.
ghost use Rattle.std.specs.Prelude.{◌≡◌, length};
ghost use Rattle.sheet_tally.specs.Tallies.{sixteen_of};
ghost use Rattle.sheet_step.specs.Lent.{sheet_of, SameBuffers};
ghost use Rattle.sheet_fill.specs.Kept.{study_in};
ghost use Rattle.sheet_turn.specs.Turns.{common_no};
ghost use Rattle.sheet_play.specs.Outcomes.{outcome_of};
ghost use Rattle.sheet_play.specs.Lent.{calls_in, outcome_in, SameList};

use crate::CallsMut;
use sheet_calls::kernel::{call_at, one_turn};
use sheet_fill::{PreparedStudy, Work};
use sheet_step::SheetMut;
use sheet_tally::Tally;

// Stores the sixteen counts of a tally. One by one: a mistake in the place is then planted by a change of the index alone. A list that is refused stores them too.
pub fn store_counts(row: &mut [u64], tally: Tally)
    requires { length row.old ≡ 16 }
    ensures { row.new ≡ sixteen_of tally.runs }
{
    let counts = tally.runs;
    for k in 0..row.len() {
        row[k] = counts[k];
    }
}

// Runs the calls, and gives the tally after the last. The corners of a triplet are looked up once for runs that follow each other. Parts by their
// index: behind a chunk that is lent, a proof knows its length alone.
pub fn play_prepared(
    sheet: &mut SheetMut,
    prepared: &PreparedStudy,
    before: Tally,
    list: &mut CallsMut,
) -> Tally
    requires { common_no (study_in prepared.now) (sheet_of sheet.old before.runs) ≡ 0 }
    ensures played { outcome_in (sheet_of sheet.new result.runs) list.new ≡ outcome_of (study_in prepared.now) (sheet_of sheet.old before.runs) (calls_in list.old) }
    ensures same { SameBuffers sheet.old sheet.new }
    ensures same_list { SameList list.old list.new }
{
    let mut work = Work::new(*prepared);
    let mut tally = before;
    let calls = list.calls;
    let answers = &mut *list.answers;
    let tallies = &mut *list.tallies;
    for i in 0..answers.len() {
        let call = call_at(calls, i);
        let turn = one_turn(&mut work, sheet, tally, call);
        answers[i] = tally.settle(turn);
        let start = i * 16;
        let end = start + 16;
        store_counts(&mut tallies[start..end], tally);
    }
    tally
}
