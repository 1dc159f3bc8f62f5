// The answer to a study as a text holds it.
ghost use Rattle.answer_weights.specs.Answers.{answer_to, Wrote};
ghost use Rattle.study.specs.Told.{study_text};
ghost use Rattle.answer.specs.Texts.{asked_of, Answerable};

use crate::asking;
use crate::floats::{fill_floats, reals};
use study::HeldStudy;
use triplet_study::Study;

// Writes it at the start of out.
pub fn put_held(out: &mut [u8; 118617], held: HeldStudy) -> usize
    requires { Answerable (study_text held) }
    ensures { Wrote (answer_to (asked_of (study_text held.entry))) out result }
{
    let table = asking::table_of(held.head);
    let mut frequencies1 = reals();
    let mut frequencies2 = reals();
    let mut frequency_points = reals();
    let study = Study {
        shape: asking::shape_of(held.head),
        addresses: held.grid.addresses,
        gp_map: held.grid.gp_map,
        relative_grid_address: &table,
        frequencies1: fill_floats(held.floats.f1, &mut frequencies1),
        frequencies2: fill_floats(held.floats.f2, &mut frequencies2),
        frequency_points: fill_floats(held.floats.points, &mut frequency_points),
        triplets: held.triplets,
    };
    asking::put_answer(out, study)
}
