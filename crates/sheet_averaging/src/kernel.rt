// For the crates above, on a sheet whose questions 3 to 13 say yes.
ghost use Rattle.std.specs.Prelude.{◌≡◌};
ghost use Rattle.triplet_study.specs.Lent.{study_of};
ghost use Rattle.sheet_tally.specs.Tallies.{runs_after};
ghost use Rattle.sheet_step.specs.Lent.{sheet_of, SameBuffers};
ghost use Rattle.sheet_step.specs.Steps.{average, Did};
ghost use Rattle.sheet_turn.specs.Turns.{common_no};

use ask::Refusal;
use marks::kernel as mark;
use sheet_average::TripletAverage;
use sheet_step::SheetMut;
use sheet_step::kernel::asks;
use sheet_tally::Tally;
use triplet_study::TestedStudy;

// Averages a triplet over the degenerate sets of two id lists: each channel, then the flags; its marks become 2, and the tally stays.
// Questions 14 to 19.
pub fn average_asked(
    sheet: &mut SheetMut,
    tested: &TestedStudy,
    tally: Tally,
    triplet: i64,
    ids1: &[i64],
    ids2: &[i64],
) -> Result<Tally, Refusal>
    requires { common_no (study_of tested.now.study) (sheet_of sheet.old tally.runs) ≡ 0 }
    ensures did { Did (study_of tested.now.study) (sheet_of sheet.old tally.runs) (average triplet ids1.now ids2.now) result (sheet_of sheet.new (runs_after result tally.runs)) }
    ensures same { SameBuffers sheet.old sheet.new }
{
    let counts = tested.counted_sizes();
    asks::ask_average(counts, sheet.weights(), sheet.marks(), triplet, ids1, ids2)?;
    let t = numbers::kernel::magnitude(triplet);
    let by = TripletAverage {
        counts,
        triplet: t,
        degenerate_ids1: ids1,
        degenerate_ids2: ids2,
    };
    sheet_average::kernel::average_weights(by, sheet.weights);
    sheet_average::kernel::average_flags(by, sheet.flags);
    mark::average_marks(tested.sizes.pairs, sheet.marks, t);
    Ok(tally)
}
