// The tally of a run sheet: the accepted runs of each worker.

#![tactic(auto)]

ghost use Rattle.std.specs.Prelude.{◌≡◌};
ghost use Rattle.ask.specs.Refusals.{number_of};
ghost use Rattle.sheet_tally.specs.Tallies.{added_to, runs_after};

use ask::Refusal;

pub mod kernel;

// The tally: a count of accepted runs, repeats included, for each of sixteen workers. A run keeps its worker's count below 2^63.
#[derive(Clone, Copy)]
pub struct Tally {
    pub runs: [u64; 16],
}

impl Tally {
    // The tally with a worker's accepted runs. Question 21: is there such a worker; 20: has its count room.
    pub fn add(self, worker: i64, runs: u64) -> Result<Tally, Refusal>
        ensures { result ≡ added_to self.runs worker runs }
    {
        kernel::ask_tally(self, worker, runs)?;
        Ok(kernel::with_runs(self, worker, runs))
    }

    // The number of an answer to a call that took this tally, 0 where the call is done; it becomes the tally that the caller then holds.
    pub fn settle(&mut self, answer: Result<Tally, Refusal>) -> u64
        ensures number { result ≡ number_of answer }
        ensures tally { self.new.runs ≡ runs_after answer self.old.runs }
    {
        match answer {
            Ok(after) => {
                *self = after;
                0
            }
            Err(why) => why.number(),
        }
    }
}
