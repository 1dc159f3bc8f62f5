// Question 22, and the order of the questions.
pub mod restore;
pub mod tested;

ghost use Rattle.std.specs.Prelude.{◌+◌, ◌<◌, ◌≡◌};
ghost use Rattle.ask.specs.Refusals.{answer_of};
ghost use Rattle.triplet_types.specs.Types.{tp_type_of};
ghost use Rattle.reading.specs.Passes.{Passes};
ghost use Rattle.listing_read.specs.Forms.{form_of};
ghost use Rattle.listing_read.specs.Restored.{next_place, is_listing, listing_in};
ghost use Rattle.listing_read.specs.Reading.{read_no};

use crate::Form;
use crate::kernel::tested::TestedForm;
use ask::Refusal;
use listing_line::Place;
use listing_line::kernel::pass_line;
use numbers::kernel::magnitude;
use reading::kernel::Reader;
use sheet_counts::Counts;
use sheet_counts::kernel::{ask_counts, cells_of};
use triplet_types::TpType;

// Where the first entry belongs.
pub(crate) const FIRST: Place = Place {
    triplet: 0,
    point: 0,
    b1: 0,
    b2: 0,
};

// The form of the listing of a type and counts.
pub fn form_of(tp: TpType, counts: Counts) -> Form
    ensures { result ≡ form_of tp counts }
{
    Form {
        points: magnitude(counts.num_band0),
        bands1: magnitude(counts.num_band1),
        bands2: magnitude(counts.num_band2),
        channels: tp.num_channels(),
    }
}

// The place after a place: b2 goes first, then b1, the point, the triplet.
#[tactic(auto, unfolding(crate::specs::Restored::next_place))]
pub fn next_place(place: Place, form: Form) -> Place
    requires { (place.triplet < 1099511627776) × (place.point < form.points) × (place.b1 < form.bands1) × (place.b2 < form.bands2) }
    ensures { result ≡ next_place form.points form.bands1 form.bands2 place }
{
    if place.b2 + 1 < form.bands2 {
        return Place {
            b2: place.b2 + 1,
            ..place
        };
    }
    if place.b1 + 1 < form.bands1 {
        return Place {
            b1: place.b1 + 1,
            b2: 0,
            ..place
        };
    }
    if place.point + 1 < form.points {
        return Place {
            triplet: place.triplet,
            point: place.point + 1,
            b1: 0,
            b2: 0,
        };
    }
    Place {
        triplet: place.triplet + 1,
        point: 0,
        b1: 0,
        b2: 0,
    }
}

// Passes over the listing of `cells` entries from the front of a text on: its header, and the line of each.
#[tactic(auto, using(crate::proofs::RestoredLaws::place_laws))]
fn pass_listing(reader: &mut Reader<'_>, tested: TestedForm, cells: usize) -> Option<()>
    requires { (reader.old.at ≡ 0) × (cells < 1099511627776) }
    ensures { Passes (listing_in tested.form.points tested.form.bands1 tested.form.bands2 tested.form.channels cells reader.old.text.now) reader.old reader.new result }
{
    let form = tested.form;
    reader.pass_slice(b"triplet\tpoint\tb1\tb2\tflag\tw\n")?;
    let mut place = FIRST;
    for _entry in 0..cells {
        pass_line(reader, place, form.channels)?;
        place = next_place(place, form);
    }
    Some(())
}

// Question 22: whether the text is the listing of `cells` entries.
#[tactic(auto, using(crate::proofs::RestoredLaws::judged_laws))]
fn is_listing(text: &[u8], tested: TestedForm, cells: usize) -> bool
    requires { cells < 1099511627776 }
    ensures { result ≡ is_listing tested.form.points tested.form.bands1 tested.form.bands2 tested.form.channels cells text.now }
{
    let mut reader = Reader::new(text);
    let passed = pass_listing(&mut reader, tested, cells);
    passed.is_some() && reader.at == text.len()
}

// Questions 8, 9, 12 and 22 of a listing and two buffers for its record. Gives the form of the listing. num_weights and num_flags count what is not
// read here: lists in their place would ask more of the caller.
#[tactic(auto, using(crate::proofs::RestoredLaws::count_laws), unfolding(ask::specs::Ask::first_no))]
pub fn ask_listing(
    listing: &[u8],
    tp_type: i64,
    counts: Counts,
    num_weights: usize,
    num_flags: usize,
) -> Result<Form, Refusal>
    ensures { result ≡ answer_of (read_no listing.now tp_type counts num_weights num_flags) (form_of (tp_type_of tp_type) counts) }
{
    let tp = ask_counts(tp_type, counts)?;
    let tested = TestedForm {
        form: form_of(tp, counts),
    };
    let cells = cells_of(counts);
    if num_weights != tested.form.channels * cells {
        return Err(Refusal::Lengths);
    }
    if num_flags != cells {
        return Err(Refusal::Lengths);
    }
    if !is_listing(listing, tested, cells) {
        return Err(Refusal::Listing);
    }
    Ok(tested.form)
}
