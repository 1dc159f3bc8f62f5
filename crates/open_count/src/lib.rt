// The open count of a triplet: how many of its entries carry scattering.

#![tactic(auto)]

ghost use Rattle.std.specs.Prelude.{◌≡◌};
ghost use Rattle.open_count.specs.OpenCount.{open_count_answer};

use ask::Refusal;
use kernel::Channels;
use numbers::kernel::magnitude;
use sheet_counts::Counts;
use sheet_counts::kernel::{cells_of, cells_per_triplet};

pub mod kernel;

// The open count of a triplet: its entries (point, b1, b2) with a weight other than zero in some output of the type. Either zero is zero, a
// NaN is not. Questions 8, 9, 12, 14.
pub fn open_count(
    tp_type: i64,
    counts: Counts,
    weights: &[f64],
    triplet: i64,
) -> Result<u64, Refusal>
    ensures { result ≡ open_count_answer tp_type counts weights.now triplet }
{
    let tp = kernel::ask_open(tp_type, counts, weights.len(), triplet)?;
    let sheet = Channels {
        weights,
        channels: tp.num_channels(),
        cells: cells_of(counts),
    };
    let size = cells_per_triplet(counts);
    Ok(sheet.open_from(magnitude(triplet) * size, size))
}
