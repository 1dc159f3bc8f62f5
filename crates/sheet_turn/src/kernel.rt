// For the crates above, on a sheet whose questions 3 to 13 say yes. That is a clause, here, in carry_asked and in one_turn: a type of sheet and
// study would have every call show that it stays so, which a list of calls alone needs, and an averaging has no work to lie beside.
ghost use Rattle.std.specs.Prelude.{◌++◌, ◌≡◌};
ghost use Rattle.ask.specs.Ask.{first_no};
ghost use Rattle.sheet_tally.specs.Tallies.{tally_questions, runs_after};
ghost use Rattle.sheet_step.specs.Lent.{sheet_of, SameBuffers};
ghost use Rattle.sheet_step.specs.Steps.{run, piece_questions, Called, Did};
ghost use Rattle.sheet_fill.specs.Kept.{study_in};
ghost use Rattle.sheet_turn.specs.Turns.{common_no};

use ask::Refusal;
use marks::kernel as mark;
use sheet_fill::Work;
use sheet_step::kernel::asks;
use sheet_step::{NamedPiece, SheetMut};
use sheet_tally::Tally;
use triplet_piece::Piece;

// Runs a named piece, to which 14, 15, 21 and 20 say yes.
pub fn run_accepted(
    work: &mut Work,
    sheet: &mut SheetMut,
    tally: Tally,
    worker: i64,
    piece: NamedPiece,
) -> Tally
    requires common { common_no (study_in work.old.prepared) (sheet_of sheet.old tally.runs) ≡ 0 }
    requires own { first_no (piece_questions work.old.prepared.tested.sizes sheet.old.marks.now piece.triplet piece.b1 piece.b2 ++ tally_questions tally.runs worker 1) ≡ 0 }
    ensures called { Called (study_in work.old.prepared) (sheet_of sheet.old tally.runs) (run worker piece.triplet piece.b1 piece.b2) 0 (sheet_of sheet.new result.runs) }
    ensures same { SameBuffers sheet.old sheet.new }
    ensures study { work.new.prepared ≡ work.old.prepared }
{
    let t = numbers::kernel::magnitude(piece.triplet);
    let n1 = numbers::kernel::magnitude(piece.b1);
    let n2 = numbers::kernel::magnitude(piece.b2);
    let accepted = Piece {
        triplet: t,
        b1: n1,
        b2: n2,
    };
    let pairs = work.prepared.tested.sizes.pairs;
    let bands2 = work.prepared.tested.sizes.bands2;
    sheet_fill::kernel::run::fill_named(work, sheet.weights, sheet.flags, accepted);
    mark::set_mark(sheet.marks, t * pairs + (n1 * bands2 + n2), mark::COMPUTED);
    sheet_tally::kernel::with_runs(tally, worker, 1)
}

// Runs a named piece. Questions 14, 15, 21, 20.
pub fn run_asked(
    work: &mut Work,
    sheet: &mut SheetMut,
    tally: Tally,
    worker: i64,
    piece: NamedPiece,
) -> Result<Tally, Refusal>
    requires common { common_no (study_in work.old.prepared) (sheet_of sheet.old tally.runs) ≡ 0 }
    ensures did { Did (study_in work.old.prepared) (sheet_of sheet.old tally.runs) (run worker piece.triplet piece.b1 piece.b2) result (sheet_of sheet.new (runs_after result tally.runs)) }
    ensures same { SameBuffers sheet.old sheet.new }
    ensures study { work.new.prepared ≡ work.old.prepared }
{
    asks::ask_run(
        work.prepared.tested.counted_sizes(),
        sheet.marks(),
        tally,
        worker,
        piece,
    )?;
    Ok(run_accepted(work, sheet, tally, worker, piece))
}
