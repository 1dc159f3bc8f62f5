// For the crates above, on a tested study and sheet: the averages of one triplet.
ghost use Rattle.std.specs.Prelude.{◌≡◌, ◌*◌, ◌≤◌, length};
ghost use Rattle.sheet_step.specs.Steps.{triplet_averaged, triplet_flags_averaged};
ghost use Rattle.sheet_average.specs.Triplets.{triplet_by};

use crate::TripletAverage;
use averaging_walk::kernel::block::Averaged;
use averaging_walk::kernel::walk::average_points;

// The entries of the triplet, channel by channel.
fn average_entries<E: Averaged>(by: TripletAverage, entries: &mut [E], channels: usize)
    requires few { channels ≤ 3 }
    requires lengths { length entries.old ≡ channels * by.counts.sizes.cells }
    ensures { entries.new ≡ triplet_by E.past_end E.rule by.entry.counts.sizes by.entry.triplet by.entry.degenerate_ids1.now by.entry.degenerate_ids2.now entries.old }
{
    let z = by.counts.sizes;
    let size = z.points * z.pairs;
    for c in 0..channels {
        let start = c * z.cells + by.triplet * size;
        let end = start + size;
        average_points(
            &mut entries[start..end],
            by.degenerate_ids1,
            by.degenerate_ids2,
            z.bands1,
            z.points,
        );
    }
}

// The weights of the triplet, channel by channel. How many there are is a clause (sheet_step says why).
pub fn average_weights(by: TripletAverage, weights: &mut [f64])
    requires { length weights.old ≡ by.counts.sizes.channels * by.counts.sizes.cells }
    ensures { weights.new ≡ triplet_averaged by.entry.counts.sizes by.entry.triplet by.entry.degenerate_ids1.now by.entry.degenerate_ids2.now weights.old }
{
    average_entries(by, weights, by.counts.sizes.channels);
}

// The flags of the triplet.
pub fn average_flags(by: TripletAverage, flags: &mut [i8])
    requires { length flags.old ≡ by.counts.sizes.cells }
    ensures { flags.new ≡ triplet_flags_averaged by.entry.counts.sizes by.entry.triplet by.entry.degenerate_ids1.now by.entry.degenerate_ids2.now flags.old }
{
    average_entries(by, flags, 1);
}
