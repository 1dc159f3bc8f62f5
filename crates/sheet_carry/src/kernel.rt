// For the crates above, on a sheet whose questions 3 to 13 say yes: a clause, for the reason that stands in sheet_turn.
ghost use Rattle.std.specs.Prelude.{◌≡◌};
ghost use Rattle.sheet_tally.specs.Tallies.{runs_after};
ghost use Rattle.sheet_step.specs.Lent.{sheet_of, SameBuffers};
ghost use Rattle.sheet_step.specs.Steps.{carry, Did};
ghost use Rattle.sheet_fill.specs.Kept.{study_in};
ghost use Rattle.sheet_turn.specs.Turns.{common_no};

use ask::Refusal;
use marks::kernel as mark;
use sheet_fill::Work;
use sheet_step::SheetMut;
use sheet_tally::Tally;

// Runs all pieces marked 0, in ascending order. Questions 21, and 20 for all runs of the call.
pub fn carry_asked(
    work: &mut Work,
    sheet: &mut SheetMut,
    tally: Tally,
    worker: i64,
) -> Result<Tally, Refusal>
    requires common { common_no (study_in work.old.prepared) (sheet_of sheet.old tally.runs) ≡ 0 }
    ensures did { Did (study_in work.old.prepared) (sheet_of sheet.old tally.runs) (carry worker) result (sheet_of sheet.new (runs_after result tally.runs)) }
    ensures same { SameBuffers sheet.old sheet.new }
    ensures study { work.new.prepared ≡ work.old.prepared }
{
    let pieces = work.prepared.tested.sizes.triplets * work.prepared.tested.sizes.pairs;
    let count = mark::open_pieces(pieces, sheet.marks());
    let added = tally.add(worker, count)?;
    sheet_fill::kernel::carry::fill_open(work, sheet.weights, sheet.flags, sheet.marks);
    Ok(added)
}
