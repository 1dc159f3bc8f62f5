// The questions of the open count, and the count over the entries of one triplet.
ghost use Rattle.std.specs.Prelude.{◌≡◌, ◌+◌, ◌*◌, ◌≤◌, ◌<◌, length};
ghost use Rattle.ask.specs.Ask.{first_no};
ghost use Rattle.ask.specs.Refusals.{answer_of};
ghost use Rattle.triplet_types.specs.Types.{tp_type_of};
ghost use Rattle.open_count.specs.OpenCount.{open_questions, is_nonzero, is_open, open_from};

use ask::Refusal;
use numbers::kernel::{is_below, magnitude};
use sheet_counts::Counts;
use sheet_counts::kernel::{ask_counts, cells_of};
use triplet_types::TpType;

// Questions 8, 9, 12 and 14. Gives the type. num_weights counts what is not read here: a list in its place would ask more of the caller.
#[tactic(auto, unfolding(ask::specs::Ask::first_no))]
pub fn ask_open(
    tp_type: i64,
    counts: Counts,
    num_weights: usize,
    triplet: i64,
) -> Result<TpType, Refusal>
    ensures { result ≡ answer_of (first_no (open_questions tp_type counts num_weights triplet)) (tp_type_of tp_type) }
{
    let tp = ask_counts(tp_type, counts)?;
    if num_weights != tp.num_channels() * cells_of(counts) {
        return Err(Refusal::Lengths);
    }
    if !is_below(triplet, magnitude(counts.num_triplets)) {
        return Err(Refusal::NotOnSheet);
    }
    Ok(tp)
}

// Whether a weight is other than zero: either zero is zero, a NaN is not.
fn is_nonzero(weight: f64) -> bool
    ensures { result ≡ is_nonzero weight }
{
    weight != 0.0
}

// The weights of a sheet, channel after channel, of so many cells each.
#[derive(Clone, Copy)]
pub struct Channels<'a> {
    pub weights: &'a [f64],
    pub channels: usize,
    pub cells: usize,
    // each cell has a weight in each channel
    pub ghost lengths: { length weights.now ≡ channels * cells },
}

impl<'a> Channels<'a> {
    // Whether entry `e` has a weight other than zero in one of its channels.
    fn is_open(&self, e: usize) -> bool
        requires { e < self.now.cells }
        ensures { result ≡ is_open self.now.channels self.now.cells self.now.weights.now e }
    {
        for c in 0..self.channels {
            if is_nonzero(self.weights[c * self.cells + e]) {
                return true;
            }
        }
        false
    }

    // How many of the `n` entries from `start` on are open. Loops here and above: tried as `filter` with `count` and as `any`, and an open count took a
    // third more instructions.
    pub fn open_from(&self, start: usize, n: usize) -> u64
        requires { start + n ≤ self.now.cells }
        ensures { result ≡ open_from self.now.channels self.now.cells self.now.weights.now start n }
    {
        let mut count: u64 = 0;
        for i in 0..n {
            count = count + u64::from(self.is_open(start + i));
        }
        count
    }
}
