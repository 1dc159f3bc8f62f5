// What playing a list asks itself, and the answers of a list that is refused whole.
ghost use Rattle.std.specs.Prelude.{◌≡◌, ◌*◌, length};
ghost use Rattle.list_laws.specs.Lists.{rows};
ghost use Rattle.sheet_tally.specs.Tallies.{sixteen_of};
ghost use Rattle.ask.specs.Refusals.{answer_of};
ghost use Rattle.sheet_list.specs.Play.{list_no};

use ask::Refusal;
use sheet_play::kernel::store_counts;
use sheet_tally::Tally;

// Question 12, of the list and of the buffers for answers and tallies.
#[tactic(auto, unfolding(ask::specs::Ask::first_no, crate::specs::Play::list_no, crate::specs::Play::are_list_lengths))]
pub fn ask_list(list: &[i64], answers: &[u64], tallies: &[u64]) -> Result<(), Refusal>
    ensures { result ≡ answer_of (list_no (length list.now) (length answers.now) (length tallies.now)) tt }
{
    let calls = answers.len();
    if !((list.len() == calls * 6) & (tallies.len() == calls * 16)) {
        return Err(Refusal::Lengths);
    }
    Ok(())
}

// Every call's sixteen counts become those of `tally`. Parts by their index: behind a chunk that is lent, a proof knows its length alone. `calls` stands
// beside the buffer: the contract counts rows, and the caller has their number.
pub fn fill_tallies(tallies: &mut [u64], calls: usize, tally: Tally)
    requires { length tallies.old ≡ calls * 16 }
    ensures { tallies.new ≡ rows calls (λ i. sixteen_of tally.runs) }
{
    for i in 0..calls {
        let start = i * 16;
        let end = start + 16;
        store_counts(&mut tallies[start..end], tally);
    }
}
