// Open counts held to the stored ones.
ghost use Rattle.std.specs.Prelude.{◌≡◌, cond};
ghost use Rattle.ask.specs.Refusals.{number_of};
ghost use Rattle.replay_report.specs.Report.{one_more};
ghost use Rattle.replay_sheet.specs.Open.{entries_of, open_agrees, after_open};

use crate::counts::{AnswerCounts, CallKind};
use replay_input::kernel::at_most;
use replay_input::reader::Reader;
use replay_study::counts::next_counts;
use sheet::Refusal;

// The number of an answer, 0 where the call is done, and the entries that it counts, 0 where it is refused.
// Both numbers stand in the record: a Result would be taken apart again to compare them.
fn told(answer: Result<u64, Refusal>) -> (u64, u64)
    ensures { result ≡ (number_of answer, entries_of answer) }
{
    match answer {
        Ok(entries) => (0, entries),
        Err(why) => (why.number(), 0),
    }
}

// An open count: type, triplets, points, both band counts, list of the weights, named triplet, then refusal and count.
#[tactic(auto, unfolding(crate::specs::Open::open_agrees, crate::specs::Open::open_answer, replay_study::specs::Records::after_list))]
pub fn open_case(reader: &mut Reader<'_>, answered: &mut AnswerCounts)
    ensures next { reader.new ≡ record reader.old { at = after_open reader.old.text.now reader.old.at } }
    ensures counted { answered.new.differences ≡ cond (open_agrees reader.old.text.now reader.old.at) answered.old.differences (one_more answered.old.differences) }
{
    let tp_type = reader.next_whole();
    let open = next_counts(reader);
    // fixed room, more than any open count of the input has weights: reading it cannot fail
    let mut room = [0.0; 256];
    let places = at_most(reader.next_count(), 256);
    let weights = &mut room[..places];
    reader.fill(weights);
    let triplet = reader.next_whole();
    let refusal = reader.next_count();
    let entries = reader.next_bits();
    let (number, counted) = told(sheet::open_count(tp_type, open, weights, triplet));
    let agrees = (number == refusal) & (counted == entries);
    answered.add(CallKind::OpenCount, Some(number), agrees);
}
