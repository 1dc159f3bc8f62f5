// A named piece: everything that it works with is lent, and the corners of its triplet are looked up where they are not kept.
ghost use Rattle.std.specs.Prelude.{◌≡◌, ◌<◌, eqb, length, Some};
ghost use Rattle.triplet_study.specs.Tested.{Fitting};
ghost use Rattle.triplet_piece.specs.Pieces.{AreCornersOf, IsPiece, number_of};
ghost use Rattle.triplet_piece.specs.Weights.{Computes};
ghost use Rattle.sheet_fill.specs.Kept.{study_in};

use crate::Work;
use triplet_piece::Piece;
use triplet_piece::kernel::{fill_corners, fill_piece};

// Keeps the corners of triplet `t`: nothing is looked up where they are kept already. Why `t` is a clause: see triplet_iw.
fn keep_corners(work: &mut Work, t: usize)
    requires { t < work.old.prepared.tested.sizes.triplets }
    ensures study { work.new.prepared ≡ work.old.prepared }
    ensures held { work.new.held ≡ Some t }
    ensures corners { AreCornersOf (study_in work.old.prepared) t work.new.corners }
{
    if work.held == Some(t) {
        return;
    }
    let prepared = work.prepared;
    fill_corners(&mut work.corners, &prepared.tested, prepared.second, t);
    work.held = Some(t);
}

// Writes a piece at every point and in every channel. The corners kept are then those of its triplet. Why `Fitting` is a clause: see
// triplet_piece.
pub fn fill_named(work: &mut Work, weights: &mut [f64], flags: &mut [i8], piece: Piece)
    requires fits { Fitting work.old.prepared.tested.sizes (length work.old.prepared.tested.study.frequency_points.now) (length weights.old) (length flags.old) }
    requires on_sheet { IsPiece work.old.prepared.tested.sizes piece }
    ensures study { work.new.prepared ≡ work.old.prepared }
    ensures held { work.new.held ≡ Some piece.triplet }
    ensures computes { Computes (study_in work.old.prepared) (λ n. eqb n (number_of work.old.prepared.tested.sizes piece)) weights flags }
{
    keep_corners(work, piece.triplet);
    let counted = work.prepared.tested.counted();
    fill_piece(
        &mut work.areas,
        weights,
        flags,
        &counted,
        &work.corners,
        piece,
    );
}
