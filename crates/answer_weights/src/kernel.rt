// The listing of a study that passed its questions, written at the start of a buffer that holds the longest one.
ghost use Rattle.std.specs.Prelude.{◌≡◌, ◌/◌, ◌≤◌, length};
ghost use Rattle.ask.specs.Ask.{first_no};
ghost use Rattle.triplet_study.specs.Lent.{study_of};
ghost use Rattle.answer_weights.specs.Asked.{questions_of};
ghost use Rattle.answer_weights.specs.Answers.{listing_for, Listable, Wrote};

use listing::kernel::{Sheet, put_listing};
use triplet_study::{Study, TestedStudy};
use writing::kernel::Writer;

// Computes all weights and flags of a study into the lent buffers, and writes their listing.
fn put_weights(
    out: &mut [u8; 118617],
    weights: &mut [f64],
    flags: &mut [i8],
    tested: &TestedStudy,
) -> usize
    requires { Listable (study_of tested.now.study) tested.now.sizes (length weights.old) (length flags.old) }
    ensures { Wrote (listing_for (study_of tested.now.study)) out result }
{
    triplet_iw::kernel::fill_tested(weights, flags, tested);
    let z = tested.sizes;
    let sheet = Sheet {
        points: z.points,
        bands1: z.bands1,
        bands2: z.bands2,
        channels: z.channels,
        weights,
        flags,
    };
    let mut writer = Writer::new(out);
    put_listing(&mut writer, &sheet);
    writer.len
}

// Room for the weights of a study: question 1 lets no more pass.
fn weight_buffer() -> [f64; 4096]
    ensures { 4096 ≡ length result }
{
    [0.0; 4096]
}

// Room for its flags.
fn flag_buffer() -> [i8; 4096]
    ensures { 4096 ≡ length result }
{
    [0; 4096]
}

// Writes the listing of a study that passed its questions.
pub fn put_study(out: &mut [u8; 118617], study: Study) -> usize
    requires passed { first_no (questions_of (study_of study)) ≡ 0 }
    requires points_len_bound { (length study.frequency_points.now ≤ 712) × (length study.triplets.now / 3 ≤ 1170) }
    ensures { Wrote (listing_for (study_of study.entry)) out result }
{
    let sizes = triplet_study::kernel::sizes_of_passed(study);
    let tested = TestedStudy { study, sizes };
    let mut weights = weight_buffer();
    let mut flags = flag_buffer();
    let m = sizes.cells;
    let n = sizes.channels * m;
    put_weights(out, &mut weights[..n], &mut flags[..m], &tested)
}
