// The answer of a call as a status, with what it gives behind a reference.
ghost use Rattle.std.specs.Prelude.{◌≡◌};
ghost use Rattle.ask.specs.Refusals.{number_of};
ghost use Rattle.statuses.specs.Statuses.{stored_of};

use ask::Refusal;

// 0, and what the call gives is stored behind `out`; or the number of its refusal, which leaves it as it was.
pub fn store<T: Copy>(answer: Result<T, Refusal>, out: &mut T) -> u64
    ensures status { result ≡ number_of answer }
    ensures out_after { out.new ≡ stored_of answer out.old }
{
    match answer {
        Ok(given) => {
            *out = given;
            0
        }
        Err(why) => why.number(),
    }
}
