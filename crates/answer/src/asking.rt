// The questions that the program asks of a study, and the answer to a study.
ghost use Rattle.std.specs.Prelude.{◌≡◌, true, ◌/◌, ◌≤◌, length};
ghost use Rattle.list_laws.specs.Signed.{is_between};
ghost use Rattle.ask.specs.Ask.{first_no};
ghost use Rattle.ask.specs.Refusals.{answer_of, refusal_number};
ghost use Rattle.listing.specs.Listings.{refusal_of};
ghost use Rattle.study_counts.specs.Counts.{few_weights};
ghost use Rattle.triplet_study.specs.Lent.{study_of};
ghost use Rattle.answer_weights.specs.Asked.{questions_of};
ghost use Rattle.answer_weights.specs.Answers.{answer_to, Wrote};
ghost use Rattle.answer.specs.Texts.{shape_of, table_for};

use ask::Refusal;
use listing::kernel::put_refusal;
use study::Head;
use triplet_study::{Shape, Study};
use writing::kernel::Writer;

// Question 1, the count of weights.
fn few_weights(shape: Shape, points: usize, triplets: usize) -> bool
    ensures { result ≡ few_weights shape.tp_type shape.num_band1 shape.num_band2 points triplets }
{
    let tp_type = shape.tp_type;
    let num_band1 = shape.num_band1;
    let num_band2 = shape.num_band2;
    study_counts::kernel::weight_count_ok(tp_type, num_band1, num_band2, points, triplets)
}

// Question 1, then questions 3 to 11.
#[tactic(auto, unfolding(ask::specs::Ask::first_no))]
fn ask(study: Study) -> Result<(), Refusal>
    ensures { result ≡ answer_of (first_no (questions_of (study_of study.entry))) tt }
{
    let triplets = (study.triplets.len() + 2) / 3;
    if !few_weights(study.shape, study.frequency_points.len(), triplets) {
        return Err(Refusal::Text);
    }
    triplet_study::kernel::ask_study(study)
}

// The shape of a head. No `From`: both types are of other crates.
pub fn shape_of(head: Head) -> Shape
    ensures { result ≡ shape_of head }
{
    Shape {
        bz_grid_type: head.bz_grid_type,
        d_diag: [head.d0, head.d1, head.d2],
        tp_type: head.tp_type,
        num_band1: head.num_band1,
        num_band2: head.num_band2,
    }
}

// The built-in table of a head.
#[tactic(auto, using(crate::proofs::AnswerLaws::asking_laws))]
pub fn table_of(head: Head) -> [i64; 288]
    requires { is_between 0 3 head.diag ≡ true }
    ensures { result ≡ table_for head }
{
    let diag = head.diag;
    let diagonal = numbers::kernel::magnitude(diag);
    let mut table = [0i64; 288];
    table.copy_from_slice(tetrahedron_tables::kernel::table(diagonal));
    table
}

// Writes the line of a refusal at the start of out, and tells how many bytes it has.
#[tactic(auto, using(crate::proofs::AnswerLaws::asking_laws))]
pub fn put_refused(out: &mut [u8; 118617], why: Refusal) -> usize
    ensures { Wrote (refusal_of (refusal_number why)) out result }
{
    let mut writer = Writer::new(out);
    put_refusal(&mut writer, why.number());
    writer.len
}

// Writes the answer to a study.
#[tactic(auto, unfolding(answer_weights::specs::Answers::answer_to))]
pub fn put_answer(out: &mut [u8; 118617], study: Study) -> usize
    requires { (length study.frequency_points.now ≤ 712) × (length study.triplets.now / 3 ≤ 1170) }
    ensures { Wrote (answer_to (study_of study.entry)) out result }
{
    match ask(study) {
        Ok(()) => answer_weights::kernel::put_study(out, study),
        Err(why) => put_refused(out, why),
    }
}
