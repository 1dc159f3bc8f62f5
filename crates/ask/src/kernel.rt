// For the crates above.
ghost use Rattle.std.specs.Prelude.{◌≡◌};
ghost use Rattle.ask.specs.Refusals.{number_of};

use crate::Refusal;

// The status of a call that gives nothing but its buffers: 0 where it is done, otherwise the refusal's number.
pub fn status_of(answer: Result<(), Refusal>) -> u64
    ensures { result ≡ number_of answer }
{
    match answer {
        Ok(()) => 0,
        Err(why) => why.number(),
    }
}
