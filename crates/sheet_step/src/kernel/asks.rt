// The questions of the calls on a sheet, in their order.
ghost use Rattle.std.specs.Prelude.{◌≡◌, ◌++◌, ◌+◌, ◌*◌, ◌<◌, length, IfOk};
ghost use Rattle.ask.specs.Ask.{first_no};
ghost use Rattle.ask.specs.Refusals.{answer_of};
ghost use Rattle.marks.specs.Bytes.{Holds};
ghost use Rattle.sheet_tally.specs.Tallies.{tally_questions};
ghost use Rattle.triplet_study.specs.Lent.{study_of};
ghost use Rattle.triplet_study.specs.Passed.{without_value};
ghost use Rattle.sheet_step.specs.Steps.{common_questions, sheet_questions, is_piece, piece_questions, average_questions, are_triplet_weights, pieces_of};

use crate::NamedPiece;
use ask::Refusal;
use marks::kernel as mark;
use numbers::kernel::{is_below, magnitude};
use question_values::kernel::averages::{degenerate_ids_ok, weights_ok};
use sheet_tally::Tally;
use triplet_study::{CountedSizes, Study, TestedStudy};

// Questions 12 and 13, of a sheet's lengths and marks. `weights` and `flags` count what is not read here: lists in their place would ask more of the
// caller.
#[tactic(auto, using(crate::proofs::CountLaws::held_laws), unfolding(ask::specs::Ask::first_no, crate::specs::Steps::are_sheet_lengths))]
fn ask_sheet(
    counts: CountedSizes,
    weights: usize,
    flags: usize,
    marks: &[u8],
) -> Result<(), Refusal>
    ensures { result ≡ answer_of (first_no (sheet_questions counts.sizes weights flags marks.now)) tt }
{
    let pairs = counts.sizes.pairs;
    let pieces = counts.sizes.triplets * pairs;
    if !(counts.lengths_ok(weights, flags) & (marks.len() == mark::bytes_for(pieces))) {
        return Err(Refusal::Lengths);
    }
    if !mark::marks_ok(pairs, pieces, marks) {
        return Err(Refusal::Marks);
    }
    Ok(())
}

// Questions 3 to 13, which every call asks. Gives the tested study. Counts of weights and flags, as for 12 and 13.
#[tactic(auto, unfolding(ask::specs::Ask::first_no))]
pub fn ask_common<'a>(
    study: Study<'a>,
    weights: usize,
    flags: usize,
    marks: &[u8],
) -> Result<TestedStudy<'a>, Refusal>
    ensures asked { without_value result ≡ answer_of (first_no (common_questions (study_of study.entry) weights flags marks.now)) tt }
    ensures same { IfOk result (λ t. t.study ≡ study.entry) }
{
    let tested = study.tested()?;
    ask_sheet(tested.counted_sizes(), weights, flags, marks)?;
    Ok(tested)
}

// Question 14, of a named piece.
fn piece_ok(counts: CountedSizes, piece: NamedPiece) -> bool
    ensures { result ≡ is_piece counts.sizes piece.triplet piece.b1 piece.b2 }
{
    is_below(piece.triplet, counts.sizes.triplets)
        & is_below(piece.b1, counts.sizes.bands1)
        & is_below(piece.b2, counts.sizes.bands2)
}

// Questions 14, 15, 21 and 20, of a run. That the marks are those of the pieces is a clause (marks says why).
#[tactic(auto, using(crate::proofs::CountLaws::place_laws, crate::proofs::StepLaws::piece_laws), unfolding(ask::specs::Ask::first_no))]
pub fn ask_run(
    counts: CountedSizes,
    marks: &[u8],
    tally: Tally,
    worker: i64,
    piece: NamedPiece,
) -> Result<(), Refusal>
    requires { Holds (pieces_of counts.sizes) marks.now }
    ensures { result ≡ answer_of (first_no (piece_questions counts.sizes marks.now piece.triplet piece.b1 piece.b2 ++ tally_questions tally.runs worker 1)) tt }
{
    if !piece_ok(counts, piece) {
        return Err(Refusal::NotOnSheet);
    }
    let t = magnitude(piece.triplet);
    if !mark::not_averaged(counts.sizes.pairs, marks, t) {
        return Err(Refusal::AlreadyAveraged);
    }
    sheet_tally::kernel::ask_tally(tally, worker, 1)
}

// Question 19, of triplet `t`, whose number is a clause (triplet_iw says why). How many weights there are is one too, here and where weights are
// written: a type of weights and counts, as open_count has one to read, would be made anew for each call.
fn triplet_weights_ok(counts: CountedSizes, t: usize, weights: &[f64]) -> bool
    requires { (t < counts.sizes.triplets) × (length weights.now ≡ counts.sizes.channels * counts.sizes.cells) }
    ensures { result ≡ are_triplet_weights counts.sizes t weights.now }
{
    let channels = counts.sizes.channels;
    let cells = counts.sizes.cells;
    let size = counts.sizes.points * counts.sizes.pairs;
    let base = t * size;
    let mut ok = true;
    for c in 0..channels {
        let start = c * cells + base;
        let end = start + size;
        ok = ok & weights_ok(&weights[start..end]);
    }
    ok
}

// Questions 14 to 19, of an averaging. Clauses as for a run and for question 19.
#[tactic(auto, using(crate::proofs::CountLaws::place_laws, crate::proofs::StepLaws::below_laws), unfolding(ask::specs::Ask::first_no, crate::specs::Steps::are_id_lists))]
pub fn ask_average(
    counts: CountedSizes,
    weights: &[f64],
    marks: &[u8],
    triplet: i64,
    degenerate_ids1: &[i64],
    degenerate_ids2: &[i64],
) -> Result<(), Refusal>
    requires { (length weights.now ≡ counts.sizes.channels * counts.sizes.cells) × Holds (pieces_of counts.sizes) marks.now }
    ensures { result ≡ answer_of (first_no (average_questions counts.sizes weights.now marks.now triplet degenerate_ids1.now degenerate_ids2.now)) tt }
{
    let pairs = counts.sizes.pairs;
    let bands = counts.sizes.bands1;
    if !is_below(triplet, counts.sizes.triplets) {
        return Err(Refusal::NotOnSheet);
    }
    let t = magnitude(triplet);
    if !mark::not_averaged(pairs, marks, t) {
        return Err(Refusal::AlreadyAveraged);
    }
    if bands != counts.sizes.bands2 {
        return Err(Refusal::UnequalBands);
    }
    if !(degenerate_ids_ok(bands, degenerate_ids1) & degenerate_ids_ok(bands, degenerate_ids2)) {
        return Err(Refusal::DegenerateIds);
    }
    if !mark::all_computed(pairs, marks, t) {
        return Err(Refusal::NotComputed);
    }
    if !triplet_weights_ok(counts, t, weights) {
        return Err(Refusal::Weights);
    }
    Ok(())
}
