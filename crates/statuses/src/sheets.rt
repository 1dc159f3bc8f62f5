// The run sheet: the open count, the tally.
ghost use Rattle.std.specs.Prelude.{◌≡◌};
ghost use Rattle.ask.specs.Ask.{first_no, after_call};
ghost use Rattle.sheet_tally.specs.Tallies.{tally_questions, with_runs};
ghost use Rattle.open_count.specs.OpenCount.{open_no, open_entries};

use crate::store::store;
use sheet_counts::Counts;
use sheet_tally::Tally;

// The open count of a triplet, behind `count`. Questions 8, 9, 12, 14.
pub fn open_count(
    tp_type: i64,
    counts: Counts,
    weights: &[f64],
    triplet: i64,
    count: &mut u64,
) -> u64
    ensures value { result ≡ open_no tp_type counts weights.now triplet }
    ensures count_after { count.new ≡ after_call (open_no tp_type counts weights.now triplet)
        (open_entries tp_type counts weights.now triplet) count.old }
{
    store(
        open_count::open_count(tp_type, counts, weights, triplet),
        count,
    )
}

// Adds a worker's runs behind `tally`. Questions 21, 20.
pub fn tally_add(tally: &mut [u64; 16], worker: i64, runs: u64) -> u64
    ensures value { result ≡ first_no (tally_questions tally.old worker runs) }
    ensures tally_after { tally.new ≡ after_call (first_no (tally_questions tally.old worker runs)) (with_runs tally.old worker runs) tally.old }
{
    // not by `settle`, which would have the counts moved once more
    let counts = *tally;
    let before = Tally { runs: counts };
    match before.add(worker, runs) {
        Ok(sum) => {
            let after = sum.runs;
            *tally = after;
            0
        }
        Err(why) => why.number(),
    }
}
