// The record of a listing that passed question 22.
ghost use Rattle.std.specs.Prelude.{◌+◌, ◌*◌, ◌≤◌, ◌<◌, true, ◌≡◌, length};
ghost use Rattle.std.specs.Float.{nan};
ghost use Rattle.list_laws.specs.Columns.{InColumn};
ghost use Rattle.list_laws.specs.Matrix.{Replaced};
ghost use Rattle.listing_line.specs.Lines.{weight_here};
ghost use Rattle.listing_read.specs.Restored.{is_listing, weights_in, flags_in};

use crate::kernel::tested::TestedForm;
use crate::kernel::{FIRST, next_place};
use listing_line::kernel::{flag_at, pass_numbers, weight_at};
use reading::kernel::Reader;

// Restores the weights of entry number e of `cells`, which stand where a reader is, and goes behind them. Both counts stand beside the weights, and how
// many these are is a clause (sheet_step says why).
fn restore_weights(
    reader: &mut Reader<'_>,
    weights: &mut [f64],
    cells: usize,
    e: usize,
    channels: usize,
)
    requires { (e < cells) × (length weights.old ≡ channels * cells) × (reader.old.at + 17 * channels ≤ length reader.old.text.now) }
    ensures value { Replaced nan cells (InColumn channels e) (λ c k. weight_here reader.old.text.now (reader.old.at + 17 * c)) weights.old weights.new }
    ensures at { reader.new.at ≡ reader.old.at + 17 * channels }
    ensures text { reader.new.text ≡ reader.old.text }
{
    for c in 0..channels {
        weights[c * cells + e] = weight_at(reader);
        reader.skip(17);
    }
}

// Restores the weights and flags of a listing.
#[tactic(auto, using(crate::proofs::RestoredLaws::place_laws), unfolding(crate::specs::Restored::weights_in, crate::specs::Restored::flags_in))]
pub fn restore(text: &[u8], tested: TestedForm, weights: &mut [f64], flags: &mut [i8])
    requires counts { (length flags.old < 1099511627776) × (length weights.old ≡ tested.form.channels * length flags.old) }
    requires text_value { is_listing tested.form.points tested.form.bands1 tested.form.bands2 tested.form.channels (length flags.old) text.now ≡ true }
    ensures weights_after { weights.new ≡ weights_in tested.form.points tested.form.bands1 tested.form.bands2 tested.form.channels (length flags.old) text.now }
    ensures flags_after { flags.new ≡ flags_in tested.form.points tested.form.bands1 tested.form.bands2 tested.form.channels (length flags.old) text.now }
{
    let form = tested.form;
    let cells = flags.len();
    let mut reader = Reader::new(text);
    reader.skip(27);
    let mut place = FIRST;
    for e in 0..cells {
        // they stand there, as the text passed question 22
        pass_numbers(&mut reader, place);
        flags[e] = flag_at(&reader);
        reader.skip(2);
        restore_weights(&mut reader, weights, cells, e, form.channels);
        place = next_place(place, form);
    }
}
