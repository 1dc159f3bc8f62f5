// The listing that `pelmetsavory_answer` writes, read back.
ghost use Rattle.std.specs.Prelude.{◌≡◌, length};
ghost use Rattle.ask.specs.Lent.{Leaves};
ghost use Rattle.listing_read.specs.Reading.{read_no, listed_weights, listed_flags};

use ask::kernel::status_of;
use sheet_counts::Counts;

// Restores the weights and flags that the writer printed, of a type and counts. Accepted is exactly what it prints for the restored record.
// Questions 8, 9, 12, 22.
#[unsafe(no_mangle)]
pub extern "C" fn pelmetsavory_read_listing(
    listing: &[u8],
    tp_type: i64,
    counts: Counts,
    weights: &mut [f64],
    flags: &mut [i8],
) -> u64
    ensures value { result ≡ read_no listing.now tp_type counts (length weights.old) (length flags.old) }
    ensures leaves { Leaves (read_no listing.now tp_type counts (length weights.old) (length flags.old))
        (listed_weights listing.now tp_type counts) weights }
    ensures leaves_2 { Leaves (read_no listing.now tp_type counts (length weights.old) (length flags.old))
        (listed_flags listing.now tp_type counts) flags }
{
    status_of(listing_read::read_listing(listing, tp_type, counts, weights, flags))
}
