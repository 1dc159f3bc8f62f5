// The calls of a list, one after the other: what all of them ask and take is asked and made once.
ghost use Rattle.std.specs.Prelude.{◌≡◌};
ghost use Rattle.triplet_study.specs.Lent.{study_of};
ghost use Rattle.sheet_step.specs.Lent.{sheet_of, SameBuffers};
ghost use Rattle.sheet_turn.specs.Turns.{common_no};
ghost use Rattle.sheet_play.specs.Outcomes.{outcome_of};
ghost use Rattle.sheet_play.specs.Lent.{calls_in, outcome_in, SameList};

use crate::asks;
use sheet_fill::PreparedStudy;
use sheet_play::CallsMut;
use sheet_step::SheetMut;
use sheet_tally::Tally;
use triplet_study::{Study, TestedStudy};

// Prepares what all calls take: the second copy of the steps.
fn play_tested(
    sheet: &mut SheetMut,
    tested: TestedStudy,
    before: Tally,
    list: &mut CallsMut,
) -> Tally
    requires { common_no (study_of tested.study) (sheet_of sheet.old before.runs) ≡ 0 }
    ensures played { outcome_in (sheet_of sheet.new result.runs) list.new ≡ outcome_of (study_of tested.entry.study) (sheet_of sheet.old before.runs) (calls_in list.old) }
    ensures same { SameBuffers sheet.old sheet.new }
    ensures same_list { SameList list.old list.new }
{
    let second = triplet_corners::kernel::second_steps(tested.sizes.tp, tested.steps());
    let prepared = PreparedStudy::new(tested, &second);
    sheet_play::kernel::play_prepared(sheet, &prepared, before, list)
}

// Plays the calls. Where one of 3 to 13 is answered no, every call is refused with its number.
pub fn play_all(sheet: &mut SheetMut, study: Study, before: Tally, list: &mut CallsMut) -> Tally
    ensures played { outcome_in (sheet_of sheet.new result.runs) list.new ≡ outcome_of (study_of study.entry) (sheet_of sheet.old before.runs) (calls_in list.old) }
    ensures same { SameBuffers sheet.old sheet.new }
    ensures same_list { SameList list.old list.new }
{
    match sheet_step::kernel::asks::ask_common(
        study,
        sheet.weights.len(),
        sheet.flags.len(),
        sheet.marks(),
    ) {
        Ok(tested) => play_tested(sheet, tested, before, list),
        Err(why) => {
            let calls = list.answers.len();
            list.answers.fill(why.number());
            asks::fill_tallies(list.tallies, calls, before);
            before
        }
    }
}
