// The run sheet: its calls, the open count, the tally.
ghost use Rattle.std.specs.Prelude.{◌≡◌};
ghost use Rattle.ask.specs.Ask.{first_no, after_call};
ghost use Rattle.ask.specs.Refusals.{number_of};
ghost use Rattle.triplet_study.specs.Lent.{study_in};
ghost use Rattle.sheet_step.specs.Lent.{sheet_in, sheet_out};
ghost use Rattle.sheet_step.specs.Steps.{run, carry, average, Called};
ghost use Rattle.sheet_tally.specs.Tallies.{tally_questions, with_runs, runs_after};
ghost use Rattle.open_count.specs.OpenCount.{open_no, open_entries};

use crate::Piece;
use ask::Refusal;
use sheet::{Counts, NamedPiece, Shape, SheetMut, Study, Tally};

// The status of an answer to a call that took the tally: 0, and its counts are stored behind `tally`; or the number of its refusal, which
// leaves them as they were.
pub(crate) fn settle(tally: &mut [u64; 16], answer: Result<Tally, Refusal>) -> u64
    ensures status { result ≡ number_of answer }
    ensures tally_after { tally.new ≡ runs_after answer tally.old }
{
    let mut counted = Tally { runs: *tally };
    let status = counted.settle(answer);
    *tally = counted.runs;
    status
}

// The parameters of the next function are the C interface: a struct in their place would be another version of it.

// Runs one piece, and counts it behind `tally` for its worker, 0 to 15. Questions 3 to 15, 21, 20.
#[unsafe(no_mangle)]
pub extern "C" fn pelmetsavory_run_piece(
    shape: Shape,
    addresses: &[i64],
    gp_map: &[i64],
    relative_grid_address: &[i64],
    frequencies1: &[f64],
    frequencies2: &[f64],
    frequency_points: &[f64],
    triplets: &[i64],
    weights: &mut [f64],
    flags: &mut [i8],
    marks: &mut [u8],
    tally: &mut [u64; 16],
    worker: i64,
    piece: Piece,
) -> u64
    ensures { Called (study_in shape addresses gp_map relative_grid_address frequencies1 frequencies2 frequency_points triplets)
        (sheet_in weights flags marks tally.old) (run worker piece.triplet piece.b1 piece.b2) result (sheet_out weights flags marks tally.new) }
{
    let counted = Tally { runs: *tally };
    let named = NamedPiece::from(piece);
    let study = Study {
        shape,
        addresses,
        gp_map,
        relative_grid_address,
        frequencies1,
        frequencies2,
        frequency_points,
        triplets,
    };
    let mut lent = SheetMut {
        weights,
        flags,
        marks,
    };
    let done = sheet::run_piece(study, &mut lent, counted, worker, named);
    settle(tally, done)
}

// The parameters of the next function are the C interface: a struct in their place would be another version of it.

// Runs all pieces marked 0, in ascending order, and counts them behind `tally` for their worker, 0 to 15.
// Questions 3 to 13, 21, 20.
#[unsafe(no_mangle)]
pub extern "C" fn pelmetsavory_carry_on(
    shape: Shape,
    addresses: &[i64],
    gp_map: &[i64],
    relative_grid_address: &[i64],
    frequencies1: &[f64],
    frequencies2: &[f64],
    frequency_points: &[f64],
    triplets: &[i64],
    weights: &mut [f64],
    flags: &mut [i8],
    marks: &mut [u8],
    tally: &mut [u64; 16],
    worker: i64,
) -> u64
    ensures { Called (study_in shape addresses gp_map relative_grid_address frequencies1 frequencies2 frequency_points triplets)
        (sheet_in weights flags marks tally.old) (carry worker) result (sheet_out weights flags marks tally.new) }
{
    let counted = Tally { runs: *tally };
    let study = Study {
        shape,
        addresses,
        gp_map,
        relative_grid_address,
        frequencies1,
        frequencies2,
        frequency_points,
        triplets,
    };
    let mut lent = SheetMut {
        weights,
        flags,
        marks,
    };
    let done = sheet::carry_on(study, &mut lent, counted, worker);
    settle(tally, done)
}

// The parameters of the next function are the C interface: a struct in their place would be another version of it.

// Averages a triplet over the degenerate sets of two id lists; all counts stay, and it names no worker. Questions 3 to 19.
#[unsafe(no_mangle)]
pub extern "C" fn pelmetsavory_average_triplet(
    shape: Shape,
    addresses: &[i64],
    gp_map: &[i64],
    relative_grid_address: &[i64],
    frequencies1: &[f64],
    frequencies2: &[f64],
    frequency_points: &[f64],
    triplets: &[i64],
    weights: &mut [f64],
    flags: &mut [i8],
    marks: &mut [u8],
    tally: &mut [u64; 16],
    triplet: i64,
    degenerate_ids1: &[i64],
    degenerate_ids2: &[i64],
) -> u64
    ensures { Called (study_in shape addresses gp_map relative_grid_address frequencies1 frequencies2 frequency_points triplets)
        (sheet_in weights flags marks tally.old) (average triplet degenerate_ids1.now degenerate_ids2.now) result (sheet_out weights flags marks tally.new) }
{
    let counted = Tally { runs: *tally };
    let study = Study {
        shape,
        addresses,
        gp_map,
        relative_grid_address,
        frequencies1,
        frequencies2,
        frequency_points,
        triplets,
    };
    let mut lent = SheetMut {
        weights,
        flags,
        marks,
    };
    let done = sheet::average_triplet(
        study,
        &mut lent,
        counted,
        triplet,
        degenerate_ids1,
        degenerate_ids2,
    );
    settle(tally, done)
}

// The open count of a triplet, behind `count`: its entries (point, b1, b2) with a weight other than zero in some output of the type. Either
// zero is zero, a NaN is not. Questions 8, 9, 12, 14.
#[unsafe(no_mangle)]
pub extern "C" fn pelmetsavory_open_count(
    tp_type: i64,
    counts: Counts,
    weights: &[f64],
    triplet: i64,
    count: &mut u64,
) -> u64
    ensures value { result ≡ open_no tp_type counts weights.now triplet }
    ensures count_after { count.new ≡ after_call (open_no tp_type counts weights.now triplet)
        (open_entries tp_type counts weights.now triplet) count.old }
{
    statuses::sheets::open_count(tp_type, counts, weights, triplet, count)
}

// Adds a worker's runs behind `tally`. Questions 21, 20.
#[unsafe(no_mangle)]
pub extern "C" fn pelmetsavory_tally_add(tally: &mut [u64; 16], worker: i64, runs: u64) -> u64
    ensures value { result ≡ first_no (tally_questions tally.old worker runs) }
    ensures tally_after { tally.new ≡ after_call (first_no (tally_questions tally.old worker runs)) (with_runs tally.old worker runs) tally.old }
{
    statuses::sheets::tally_add(tally, worker, runs)
}
