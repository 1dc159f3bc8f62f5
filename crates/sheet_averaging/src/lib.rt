// The averaging of a triplet of the run sheet.

#![tactic(auto)]

ghost use Rattle.triplet_study.specs.Lent.{study_of};
ghost use Rattle.sheet_tally.specs.Tallies.{runs_after};
ghost use Rattle.sheet_step.specs.Lent.{sheet_of, SameBuffers};
ghost use Rattle.sheet_step.specs.Steps.{average, Did};

use ask::Refusal;
pub use sheet_step::SheetMut;
pub use sheet_tally::Tally;
pub use triplet_study::{Shape, Study};

pub mod kernel;

// Averages a triplet over the degenerate sets of two id lists: each channel, then the flags; its marks become 2, and the tally stays.
// Questions 3 to 19.
pub fn average_triplet(
    study: Study,
    sheet: &mut SheetMut,
    tally: Tally,
    triplet: i64,
    degenerate_ids1: &[i64],
    degenerate_ids2: &[i64],
) -> Result<Tally, Refusal>
    ensures did { Did (study_of study.entry) (sheet_of sheet.old tally.runs) (average triplet degenerate_ids1.now degenerate_ids2.now) result
        (sheet_of sheet.new (runs_after result tally.runs)) }
    ensures same { SameBuffers sheet.old sheet.new }
{
    let tested = sheet_step::kernel::asks::ask_common(
        study,
        sheet.weights.len(),
        sheet.flags.len(),
        sheet.marks(),
    )?;
    kernel::average_asked(
        sheet,
        &tested,
        tally,
        triplet,
        degenerate_ids1,
        degenerate_ids2,
    )
}
