// Addresses of triplets: whether they add to zero, and both copies of the neighbour table.

#![tactic(auto)]

ghost use Rattle.std.specs.Prelude.{◌≡◌, length};
ghost use Rattle.ask.specs.Ask.{first_no, after_call};
ghost use Rattle.ask.specs.Refusals.{answer_of};
ghost use Rattle.triplet_addresses.specs.Normal.{is_n_questions, is_normal};
ghost use Rattle.triplet_addresses.specs.Copies.{copy_questions, both_copies};

pub use ask::Refusal;
use question_grids::Triples;

mod copies;
mod normal;

// Whether a triplet is a normal process: its three addresses add to zero in each component. Questions 5 (without the count) and 10.
#[tactic(auto, unfolding(ask::specs::Ask::first_no))]
pub fn is_n(triplet: [i64; 3], bz_grid_addresses: &[i64]) -> Result<bool, Refusal>
    ensures { result ≡ answer_of (first_no (is_n_questions triplet bz_grid_addresses.now)) (is_normal triplet bz_grid_addresses.now) }
{
    if !question_grids::kernel::grid::triples_ok(bz_grid_addresses) {
        return Err(Refusal::Addresses);
    }
    if !normal::on_grid(triplet, bz_grid_addresses.len() / 3) {
        return Err(Refusal::GridPoints);
    }
    let addresses = Triples {
        numbers: bz_grid_addresses,
    };
    Ok(normal::is_normal(triplet, addresses))
}

// The neighbour table for the second and for the third point of a triplet, one copy after the other. Questions 7, 8, 12.
pub fn set_relative_grid_address(
    out: &mut [i64],
    relative_grid_address: &[i64],
    tp_type: i64,
) -> Result<(), Refusal>
    ensures value { result ≡ answer_of (first_no (copy_questions relative_grid_address.now tp_type (length out.old))) tt }
    ensures out_after { out.new ≡ after_call (first_no (copy_questions relative_grid_address.now tp_type (length out.old)))
        (both_copies tp_type relative_grid_address.now)
        out.old }
{
    let tp = copies::ask_copies(relative_grid_address, tp_type, out.len())?;
    let table = Triples {
        numbers: relative_grid_address,
    };
    copies::fill_copies(out, table, triplet_corners::kernel::is_negated(tp));
    Ok(())
}
