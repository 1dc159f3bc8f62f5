// Integration weights of triplets.

#![tactic(auto)]

ghost use Rattle.triplet_study.specs.Lent.{with_triplet};
ghost use Rattle.triplet_iw.specs.Calls.{DidFill};

pub use ask::Refusal;
pub use averaging::{Averaging, average_weights_over_degenerate_sets};
pub use triplet_study::{Shape, Study};
pub use triplet_types::TpType;

pub mod kernel;

// The weights and flags of one triplet of a study, whose own triplets are not looked at: the channels one after another,
// each by point, b1, b2; flags without the channel. Questions 3 to 12.
pub fn integration_weight_per_triplet(
    study: Study,
    triplet: [i64; 3],
    weights: &mut [f64],
    flags: &mut [i8],
) -> Result<(), Refusal>
    ensures { DidFill (with_triplet study.entry triplet) weights flags result }
{
    let one = Study {
        triplets: &triplet,
        ..study
    };
    kernel::fill_study(one, weights, flags)
}
