// The tally's questions and sums, for the sheet's calls.
ghost use Rattle.std.specs.Prelude.{◌≡◌};
ghost use Rattle.ask.specs.Ask.{first_no};
ghost use Rattle.ask.specs.Refusals.{answer_of};
ghost use Rattle.sheet_tally.specs.Tallies.{is_room, tally_questions, with_runs};

use crate::Tally;
use ask::Refusal;

// How many workers there are.
pub const WORKERS: usize = 16;

// 2^63
pub const FULL: u64 = 0x8000_0000_0000_0000;

// Question 20, of one count.
fn room_ok(before: u64, runs: u64) -> bool
    ensures { result ≡ is_room before runs }
{
    if before < FULL {
        return runs < FULL - before;
    }
    false
}

// Questions 21 and 20.
#[tactic(auto, using(crate::proofs::TallyLaws::worker_laws), unfolding(ask::specs::Ask::first_no, crate::specs::Tallies::is_worker))]
pub fn ask_tally(tally: Tally, worker: i64, runs: u64) -> Result<(), Refusal>
    ensures { result ≡ answer_of (first_no (tally_questions tally.runs worker runs)) tt }
{
    let counts = tally.runs;
    if !numbers::kernel::is_below(worker, WORKERS) {
        return Err(Refusal::Worker);
    }
    if !room_ok(counts[numbers::kernel::magnitude(worker)], runs) {
        return Err(Refusal::TallyFull);
    }
    Ok(())
}

// The tally in which a worker's count has grown by its runs, to which 21 and 20 say yes.
pub fn with_runs(tally: Tally, worker: i64, runs: u64) -> Tally
    requires { first_no (tally_questions tally.runs worker runs) ≡ 0 }
    ensures { result.runs ≡ with_runs tally.runs worker runs }
{
    let mut counts = tally.runs;
    let w = numbers::kernel::magnitude(worker);
    counts[w] = counts[w] + runs;
    Tally { runs: counts }
}
