// Channels and outputs at a frequency point, of work areas whose rows are in order.
ghost use Rattle.std.specs.Prelude.{◌≡◌, ◌*◌, ◌≤◌};
ghost use Rattle.triplet_values.specs.Values.{channel_values, number_of};
ghost use Rattle.triplet_channels.specs.Ordered.{further_rows, ordered_channel_at, ordered_further_at, outputs_ordered, Prepared};

use crate::{Channel, Channels};
use tetrahedron_method::WeightFunction;
use tetrahedron_method::kernel::sorted::{sort_rows, sorted_weight};
use tetrahedron_sort::Rows;
use triplet_outputs::Outputs;
use triplet_outputs::kernel::{combine_outputs, is_open};
use triplet_types::TpType;
use triplet_values::{Combination, CornerCount};

// Makes a channel ready: its values at the corners, of frequencies f1 and f2 there, their box, and then the rows in order.
pub fn prepare_channel(
    channel: &mut Channel,
    combination: Combination,
    f1: &[f64; 384],
    f2: &[f64; 384],
    rows: Rows,
)
    ensures { Prepared rows.count (channel_values (number_of combination) f1.now f2.now (rows.count * 4)) channel.new }
{
    let n = CornerCount {
        count: rows.corners(),
    };
    triplet_values::kernel::fill_channel(&mut channel.values, combination, f1, f2, n);
    channel.bounds = triplet_values::kernel::box_of(&channel.values, n);
    sort_rows(&mut channel.values, &mut channel.places, rows);
}

// A channel: closed, `None`, or open with its weight I where the point lies in the box.
#[tactic(auto, unfolding(crate::specs::Ordered::ordered_channel_at))]
fn channel_at(f0: f64, channel: &Channel, rows: Rows) -> Option<f64>
    ensures { result ≡ ordered_channel_at f0 channel.now rows.count }
{
    if is_open(channel.bounds, f0) {
        let w = sorted_weight(
            WeightFunction::I,
            f0,
            &channel.values,
            &channel.places,
            rows,
        );
        Some(w)
    } else {
        None
    }
}

// How many rows to make of a channel that type 4 does not have.
pub fn further_rows(tp: TpType, rows: usize) -> usize
    ensures by_type { result ≡ further_rows tp rows }
    ensures few { result ≤ rows }
{
    match tp {
        TpType::Type2 => rows,
        TpType::Type3 => rows,
        TpType::Type4 => 0,
    }
}

// A channel that type 4 does not have.
#[tactic(auto, unfolding(crate::specs::Ordered::ordered_further_at))]
fn further_channel_at(tp: TpType, f0: f64, channel: &Channel, rows: Rows) -> Option<f64>
    ensures { result ≡ ordered_further_at tp f0 channel.now rows.count }
{
    match tp {
        TpType::Type2 => channel_at(f0, channel, rows),
        TpType::Type3 => channel_at(f0, channel, rows),
        TpType::Type4 => None,
    }
}

// The outputs at a frequency point of three channels that are ready.
#[tactic(auto, unfolding(crate::specs::Ordered::outputs_ordered))]
pub fn outputs_at(tp: TpType, f0: f64, channels: &Channels, rows: Rows) -> Outputs
    ensures { result ≡ outputs_ordered tp f0 channels.now rows.count }
{
    let c0 = channel_at(f0, &channels.first, rows);
    let c1 = further_channel_at(tp, f0, &channels.second, rows);
    let c2 = further_channel_at(tp, f0, &channels.third, rows);
    combine_outputs(tp, c0, c1, c2)
}
