// All open pieces, in ascending order.
ghost use Rattle.std.specs.Prelude.{◌≡◌, ◌<◌, length};
ghost use Rattle.triplet_study.specs.Tested.{Fitting};
ghost use Rattle.triplet_piece.specs.Pieces.{IsPiece, number_of};
ghost use Rattle.triplet_piece.specs.Weights.{Computes};
ghost use Rattle.marks.specs.Bytes.{Holds};
ghost use Rattle.marks.specs.Marks.{is_open_at, carried_marks};
ghost use Rattle.sheet_step.specs.Steps.{pieces_of};
ghost use Rattle.sheet_fill.specs.Kept.{study_in};

use crate::Work;
use crate::kernel::run;
use marks::kernel as mark;
use triplet_piece::Piece;
use triplet_study::TestedStudy;

// Piece `q` by its triplet and its bands.
fn piece_at(tested: &TestedStudy, q: usize) -> Piece
    requires { q < pieces_of tested.now.sizes }
    ensures on_sheet { IsPiece tested.now.sizes result }
    ensures number { number_of tested.now.sizes result ≡ q }
{
    let pairs = tested.sizes.pairs;
    let bands2 = tested.sizes.bands2;
    let pair = q % pairs;
    Piece {
        triplet: q / pairs,
        b1: pair / bands2,
        b2: pair % bands2,
    }
}

// All open pieces. Why `Fitting` is a clause: see triplet_piece.
pub fn fill_open(work: &mut Work, weights: &mut [f64], flags: &mut [i8], marks: &mut [u8])
    requires fits { Fitting work.old.prepared.tested.sizes (length work.old.prepared.tested.study.frequency_points.now) (length weights.old) (length flags.old) }
    requires held { Holds (pieces_of work.old.prepared.tested.sizes) marks.old }
    ensures study { work.new.prepared ≡ work.old.prepared }
    ensures computes { Computes (study_in work.old.prepared) (is_open_at (pieces_of work.old.prepared.tested.sizes) marks.old) weights flags }
    ensures marks_after { marks.new ≡ carried_marks (pieces_of work.old.prepared.tested.sizes) marks.old }
{
    let pieces = work.prepared.tested.sizes.triplets * work.prepared.tested.sizes.pairs;
    for q in 0..pieces {
        if mark::mark_at(marks, q) != mark::OPEN {
            continue;
        }
        let piece = piece_at(&work.prepared.tested, q);
        run::fill_named(work, weights, flags, piece);
        mark::set_mark(marks, q, mark::COMPUTED);
    }
}
