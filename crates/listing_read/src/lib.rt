// The listing read back: its weights and flags, or a refusal that leaves both buffers as they were.

#![tactic(auto)]

ghost use Rattle.std.specs.Prelude.{◌≡◌, length};
ghost use Rattle.ask.specs.Lent.{Leaves};
ghost use Rattle.ask.specs.Refusals.{answer_of};
ghost use Rattle.listing_read.specs.Reading.{read_no, listed_weights, listed_flags};

use ask::Refusal;
use kernel::tested::TestedForm;
use sheet_counts::Counts;

pub mod kernel;

// The counts of a listing's lines: frequency points, bands of the second phonon and of the third, channels.
#[derive(Clone, Copy)]
pub struct Form {
    pub points: usize,
    pub bands1: usize,
    pub bands2: usize,
    pub channels: usize,
}

// Restores the weights and flags that the writer printed. Accepted is exactly what it prints for the restored record. Questions 8, 9, 12, 22.
pub fn read_listing(
    listing: &[u8],
    tp_type: i64,
    counts: Counts,
    weights: &mut [f64],
    flags: &mut [i8],
) -> Result<(), Refusal>
    ensures value { result ≡ answer_of (read_no listing.now tp_type counts (length weights.old) (length flags.old)) tt }
    ensures leaves { Leaves (read_no listing.now tp_type counts (length weights.old) (length flags.old))
        (listed_weights listing.now tp_type counts) weights }
    ensures leaves_2 { Leaves (read_no listing.now tp_type counts (length weights.old) (length flags.old))
        (listed_flags listing.now tp_type counts) flags }
{
    let form = kernel::ask_listing(listing, tp_type, counts, weights.len(), flags.len())?;
    let tested = TestedForm { form };
    kernel::restore::restore(listing, tested, weights, flags);
    Ok(())
}
