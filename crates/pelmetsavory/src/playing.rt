// A whole list of calls on a sheet, in one call.
ghost use Rattle.std.specs.Prelude.{length};
ghost use Rattle.triplet_study.specs.Lent.{study_in};
ghost use Rattle.sheet_step.specs.Lent.{sheet_in, sheet_out};
ghost use Rattle.sheet_calls.specs.Calls.{calls_of};
ghost use Rattle.sheet_play.specs.Outcomes.{outcome};
ghost use Rattle.sheet_list.specs.Play.{list_no};
ghost use Rattle.pelmetsavory.specs.Sheets.{CalledPlay};

use crate::sheets::settle;
use sheet_list::{Calls, Shape, SheetMut, Study, Tally};

// The parameters of the next function are the C interface: a struct in their place would be another version of it.

// Plays a list of calls, six numbers a call, on a sheet with any marks, and counts the runs behind `tally`. Each call's status goes to its
// place in `answers`, the sixteen counts after it to their places in `tallies`. The status is 0, or 12: has the list six numbers, and
// `tallies` sixteen, for each of `answers`? What a call asks is told in its place alone.
#[unsafe(no_mangle)]
pub extern "C" fn pelmetsavory_play(
    shape: Shape,
    addresses: &[i64],
    gp_map: &[i64],
    relative_grid_address: &[i64],
    frequencies1: &[f64],
    frequencies2: &[f64],
    frequency_points: &[f64],
    triplets: &[i64],
    weights: &mut [f64],
    flags: &mut [i8],
    marks: &mut [u8],
    tally: &mut [u64; 16],
    list: &[i64],
    ids: &[i64],
    answers: &mut [u64],
    tallies: &mut [u64],
) -> u64
    ensures { CalledPlay (study_in shape addresses gp_map relative_grid_address frequencies1 frequencies2 frequency_points triplets) (sheet_in weights flags marks tally.old) (calls_of list.now ids.now)
        (list_no (length list.now) (length answers.old) (length tallies.old))
        answers.old tallies.old result (outcome (sheet_out weights flags marks tally.new) answers.new tallies.new) }
{
    let counted = Tally { runs: *tally };
    let study = Study {
        shape,
        addresses,
        gp_map,
        relative_grid_address,
        frequencies1,
        frequencies2,
        frequency_points,
        triplets,
    };
    let mut lent = SheetMut {
        weights,
        flags,
        marks,
    };
    let calls = Calls { list, ids };
    let done = sheet_list::play(study, &mut lent, counted, calls, answers, tallies);
    settle(tally, done)
}
