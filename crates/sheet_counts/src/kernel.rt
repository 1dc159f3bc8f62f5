// Counts that are tested first and multiplied afterwards.
ghost use Rattle.std.specs.Prelude.{◌≡◌, true};
ghost use Rattle.ask.specs.Ask.{first_no};
ghost use Rattle.ask.specs.Refusals.{answer_of};
ghost use Rattle.triplet_types.specs.Types.{tp_type_of};
ghost use Rattle.sheet_counts.specs.SheetCounts.{are_sheet_counts, count_questions, cells_per_triplet, cells_of};

use crate::Counts;
use ask::Refusal;
use numbers::kernel::magnitude;
use question_values::kernel::counts::signed_counts_ok;
use triplet_types::TpType;

// Question 9, of all four counts.
fn counts_ok(counts: Counts) -> bool
    ensures { result ≡ are_sheet_counts counts }
{
    signed_counts_ok(
        counts.num_band1,
        counts.num_band2,
        counts.num_band0,
        counts.num_triplets,
    )
}

// Questions 8 and 9. Gives the type.
#[tactic(auto, unfolding(ask::specs::Ask::first_no))]
pub fn ask_counts(tp_type: i64, counts: Counts) -> Result<TpType, Refusal>
    ensures { result ≡ answer_of (first_no (count_questions tp_type counts)) (tp_type_of tp_type) }
{
    let tp = TpType::try_from(tp_type)?;
    if !counts_ok(counts) {
        return Err(Refusal::Counts);
    }
    Ok(tp)
}

// How many entries one triplet has.
pub fn cells_per_triplet(counts: Counts) -> usize
    requires { are_sheet_counts counts ≡ true }
    ensures { result ≡ cells_per_triplet counts }
{
    let points = magnitude(counts.num_band0);
    let bands1 = magnitude(counts.num_band1);
    let bands2 = magnitude(counts.num_band2);
    points * (bands1 * bands2)
}

// How many entries the sheet has.
pub fn cells_of(counts: Counts) -> usize
    requires { are_sheet_counts counts ≡ true }
    ensures { result ≡ cells_of counts }
{
    magnitude(counts.num_triplets) * cells_per_triplet(counts)
}
