// One call of a list, by its kind. That the sheet passed questions 3 to 13 is a clause, for the reason that stands in sheet_turn.
ghost use Rattle.std.specs.Prelude.{◌≡◌, ◌+◌, ◌*◌, ◌≤◌, length};
ghost use Rattle.sheet_tally.specs.Tallies.{runs_after};
ghost use Rattle.sheet_step.specs.Lent.{sheet_of, SameBuffers};
ghost use Rattle.sheet_step.specs.Steps.{Did};
ghost use Rattle.sheet_fill.specs.Kept.{study_in};
ghost use Rattle.sheet_turn.specs.Turns.{common_no};
ghost use Rattle.sheet_calls.specs.Calls.{call_at};
ghost use Rattle.sheet_calls.specs.Named.{call_named};

use crate::parts::call_of;
use crate::{Call, Calls};
use ask::Refusal;
use sheet_fill::Work;
use sheet_step::SheetMut;
use sheet_tally::Tally;

// Call `i` of a list.
pub fn call_at<'a>(calls: Calls<'a>, i: usize) -> Call<'a>
    requires { i * 6 + 6 ≤ length calls.list.now }
    ensures { call_named result ≡ call_at calls.entry.list.now calls.entry.ids.now i }
{
    let start = i * 6;
    let end = start + 6;
    call_of(&calls.list[start..end], calls.ids)
}

// Makes a call.
pub fn one_turn(
    work: &mut Work,
    sheet: &mut SheetMut,
    tally: Tally,
    call: Call,
) -> Result<Tally, Refusal>
    requires common { common_no (study_in work.old.prepared) (sheet_of sheet.old tally.runs) ≡ 0 }
    ensures did { Did (study_in work.old.prepared) (sheet_of sheet.old tally.runs) (call_named call.entry) result (sheet_of sheet.new (runs_after result tally.runs)) }
    ensures same { SameBuffers sheet.old sheet.new }
    ensures study { work.new.prepared ≡ work.old.prepared }
{
    match call {
        Call::Run { worker, piece } => {
            sheet_turn::kernel::run_asked(work, sheet, tally, worker, piece)
        }
        Call::CarryOn { worker } => { sheet_carry::kernel::carry_asked(work, sheet, tally, worker) }
        Call::Average {
            triplet,
            ids1,
            ids2,
        } => sheet_averaging::kernel::average_asked(
            sheet,
            &work.prepared.tested,
            tally,
            triplet,
            ids1,
            ids2,
        ),
    }
}
