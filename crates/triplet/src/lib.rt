// Triplets: whether their addresses add to zero, both copies of the neighbour table, and the weights of all triplets.

#![tactic(auto)]

ghost use Rattle.triplet_study.specs.Lent.{study_of};
ghost use Rattle.triplet_iw.specs.Calls.{DidFill};

pub use ask::Refusal;
pub use triplet_addresses::{is_n, set_relative_grid_address};
pub use triplet_study::{Shape, Study};

// The weights and flags of all triplets: weights by channel, triplet, point, b1, b2; flags without the channel. Questions 3 to 12.
pub fn integration_weight(
    study: Study,
    weights: &mut [f64],
    flags: &mut [i8],
) -> Result<(), Refusal>
    ensures { DidFill (study_of study.entry) weights flags result }
{
    triplet_iw::kernel::fill_study(study, weights, flags)
}
