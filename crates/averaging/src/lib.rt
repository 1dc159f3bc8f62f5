// The part of triplet_iw.rs that averages integration weights over degenerate sets.

#![tactic(auto)]

ghost use Rattle.std.specs.Prelude.{◌≡◌};
ghost use Rattle.averaging.specs.Answers.{averaging_answer, weights_after, flags_after};
ghost use Rattle.ask.specs.Refusals.{answer_of};
ghost use Rattle.triplet_types.specs.Types.{tp_type_of};
ghost use Rattle.averaging.specs.Lent.{no_in, answer_in, weights_in, flags_in};

pub use ask::Refusal;
use averaging_walk::kernel::walk::average_points;
use numbers::kernel::magnitude;
use question_values::kernel::averages::{degenerate_ids_ok, weights_ok};
use question_values::kernel::counts::signed_counts_ok;
use triplet_types::TpType;

// What one triplet is averaged by: the degenerate ids at q' and at q'', the counts of points and of bands, and the type.
#[derive(Clone, Copy)]
pub struct Averaging<'a> {
    pub degenerate_ids1: &'a [i64],
    pub degenerate_ids2: &'a [i64],
    pub num_band0: i64,
    pub num_band: i64,
    pub tp_type: i64,
}

// Questions 8, 9, 12, 17 and 19. Gives the type.
#[tactic(auto, using(crate::proofs::AnswerLaws::size_laws), unfolding(ask::specs::Ask::first_no))]
fn ask_averaging(averaging: Averaging, iw: &[f64], iw_zero: &[i8]) -> Result<TpType, Refusal>
    ensures { result ≡ answer_of (no_in iw.now iw_zero.now averaging.entry) (tp_type_of averaging.entry.tp_type) }
{
    let tp = TpType::try_from(averaging.tp_type)?;
    if !signed_counts_ok(
        averaging.num_band,
        averaging.num_band,
        averaging.num_band0,
        1,
    ) {
        return Err(Refusal::Counts);
    }
    let bands = magnitude(averaging.num_band);
    let size = magnitude(averaging.num_band0) * (bands * bands);
    let all = tp.num_channels() * size;
    if !((iw.len() == all) & (iw_zero.len() == size)) {
        return Err(Refusal::Lengths);
    }
    if !(degenerate_ids_ok(bands, averaging.degenerate_ids1)
        & degenerate_ids_ok(bands, averaging.degenerate_ids2))
    {
        return Err(Refusal::DegenerateIds);
    }
    if !weights_ok(iw) {
        return Err(Refusal::Weights);
    }
    Ok(tp)
}

// Averages the weights and the flags of one triplet in place. `iw` holds the channels one after another, each by point,
// band at q', band at q''; `iw_zero` has the shape of one channel; `num_band0` counts the frequency points.
#[tactic(auto, using(crate::proofs::AnswerLaws::accepted))]
pub fn average_weights_over_degenerate_sets(
    averaging: Averaging,
    iw: &mut [f64],
    iw_zero: &mut [i8],
) -> Result<(), Refusal>
    ensures value { result ≡ answer_in iw.old iw_zero.old averaging.entry }
    ensures iw_after { iw.new ≡ weights_in iw.old iw_zero.old averaging.entry }
    ensures iw_zero_after { iw_zero.new ≡ flags_in iw.old iw_zero.old averaging.entry }
{
    let tp = ask_averaging(averaging, iw, iw_zero)?;
    let ids1 = averaging.degenerate_ids1;
    let ids2 = averaging.degenerate_ids2;
    let bands = magnitude(averaging.num_band);
    let points = magnitude(averaging.num_band0);
    let all_points = tp.num_channels() * points;
    average_points(iw, ids1, ids2, bands, all_points);
    average_points(iw_zero, ids1, ids2, bands, points);
    Ok(())
}
