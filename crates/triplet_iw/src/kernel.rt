// For the crates above.
ghost use Rattle.std.specs.Prelude.{◌≡◌, ◌/◌, ◌<◌, true, eqb, length};
ghost use Rattle.triplet_study.specs.Lent.{study_of};
ghost use Rattle.triplet_study.specs.Questions.{are_lengths};
ghost use Rattle.triplet_corners.specs.Corners.{second_steps};
ghost use Rattle.triplet_piece.specs.Weights.{Computes};
ghost use Rattle.triplet_iw.specs.Whole.{ComputesAll};
ghost use Rattle.triplet_iw.specs.Calls.{DidFill};

use ask::Refusal;
use triplet_piece::kernel::{fill_corners, fill_piece};
use triplet_piece::{Corners, Piece, WorkAreas};
use triplet_study::{Study, TestedStudy};

// All pieces of triplet `t`: its corners are looked up once. `second` is the second copy of the steps; the work areas are lent.
// That `t` is one of the study's is a clause, here and wherever a triplet goes by its number: a type for it would hold the study beside it.
// Why `second` goes beside the study: see `fill_tested`.
pub fn fill_triplet(
    areas: &mut WorkAreas,
    weights: &mut [f64],
    flags: &mut [i8],
    tested: &TestedStudy,
    second: &[i64],
    t: usize,
)
    requires room { are_lengths tested.now.sizes (length weights.old) (length flags.old) ≡ true }
    requires copied { second.now ≡ second_steps tested.now.sizes.tp tested.now.study.relative_grid_address.now }
    requires t_in_bounds { t < tested.now.sizes.triplets }
    ensures { Computes (study_of tested.now.study) (λ n. eqb (n / tested.now.sizes.pairs) t) weights flags }
{
    let mut corners = Corners {
        first: [0; 384],
        second: [0; 384],
    };
    fill_corners(&mut corners, tested, second, t);
    let counted = tested.counted();
    let bands2 = tested.sizes.bands2;
    for k in 0..tested.sizes.pairs {
        let piece = Piece {
            triplet: t,
            b1: k / bands2,
            b2: k % bands2,
        };
        fill_piece(areas, weights, flags, &counted, &corners, piece);
    }
}

// All triplets: the second copy of the steps is made once. It goes beside the study: sheet_fill's `PreparedStudy`, which holds both, belongs
// to the calls on a sheet and stands above.
pub fn fill_tested(weights: &mut [f64], flags: &mut [i8], tested: &TestedStudy)
    requires { are_lengths tested.now.sizes (length weights.old) (length flags.old) ≡ true }
    ensures { ComputesAll (study_of tested.now.study) weights flags }
{
    let steps = tested.study.relative_grid_address;
    let second = triplet_corners::kernel::second_steps(tested.sizes.tp, tested.steps());
    let mut areas = WorkAreas::new();
    for t in 0..tested.sizes.triplets {
        fill_triplet(
            &mut areas,
            weights,
            flags,
            tested,
            &second[..steps.len()],
            t,
        );
    }
}

// The weights and flags of all triplets of a study. Questions 3 to 12.
#[tactic(auto, unfolding(ask::specs::Ask::first_no))]
pub fn fill_study(study: Study, weights: &mut [f64], flags: &mut [i8]) -> Result<(), Refusal>
    ensures { DidFill (study_of study.entry) weights flags result }
{
    let tested = study.tested()?;
    if !tested.lengths_ok(weights.len(), flags.len()) {
        return Err(Refusal::Lengths);
    }
    fill_tested(weights, flags, &tested);
    Ok(())
}
