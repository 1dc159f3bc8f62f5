// Both copies of a tested neighbour table.
ghost use Rattle.std.specs.Prelude.{◌≡◌, ◌*◌, length};
ghost use Rattle.ask.specs.Ask.{first_no};
ghost use Rattle.ask.specs.Refusals.{answer_of};
ghost use Rattle.triplet_types.specs.Types.{tp_type_of};
ghost use Rattle.triplet_addresses.specs.Copies.{copies_of, copy_questions};

use ask::Refusal;
use question_grids::Triples;
use triplet_corners::kernel::fill_copy;
use triplet_types::TpType;

// Questions 7, 8 and 12. Gives the type. out_len counts what is not read here: a list in its place would ask more of the caller.
#[tactic(auto, using(question_grids::proofs::TableLaws::table_laws), unfolding(ask::specs::Ask::first_no))]
pub fn ask_copies(
    relative_grid_address: &[i64],
    tp_type: i64,
    out_len: usize,
) -> Result<TpType, Refusal>
    ensures { result ≡ answer_of (first_no (copy_questions relative_grid_address.now tp_type out_len)) (tp_type_of tp_type) }
{
    if !question_grids::kernel::tables::table_ok(relative_grid_address) {
        return Err(Refusal::Table);
    }
    let tp = TpType::try_from(tp_type)?;
    if !question_values::kernel::counts::length_ok(2, relative_grid_address.len(), out_len) {
        return Err(Refusal::Lengths);
    }
    Ok(tp)
}

// The first copy as the table is, then the second. The first by the same loop: `copy_from_slice` would have the archive ask for `memmove`.
pub fn fill_copies(out: &mut [i64], table: Triples, negated: bool)
    requires { length out.old ≡ 2 * length table.numbers.now }
    ensures { out.new ≡ copies_of negated table.entry.numbers.now }
{
    let n = table.numbers.len();
    let end = out.len();
    fill_copy(&mut out[..n], table, false);
    fill_copy(&mut out[n..end], table, negated);
}
