// The answer to a text: the listing of its study, or the number of the first question that it fails.

#![tactic(auto)]

ghost use Rattle.std.specs.Prelude.{◌≡◌, length};
ghost use Rattle.answer.specs.Texts.{answer_of, answered};

use ask::Refusal;
use study::{FloatsBuffers, GridBuffers, StudyBuffers};

mod asking;
mod floats;
mod held;

// Writes the answer to a text at the start of out, and tells how many bytes it has. No answer is longer than out.
// Questions 1, 3, 4, 5, 6, 8, 9, 10, 11.
pub fn answer(text: &[u8], out: &mut [u8; 118617]) -> usize
    ensures value { result ≡ length (answer_of text.now) }
    ensures out_after { out.new ≡ answered (answer_of text.now) out.old }
{
    let mut addresses = [0i64; 16387];
    let mut gp_map = [0i64; 16385];
    let mut f1 = [0u64; 16385];
    let mut f2 = [0u64; 16385];
    let mut points = [0u64; 16385];
    let mut triplets = [0i64; 16387];
    let buffers = StudyBuffers {
        grid: GridBuffers {
            addresses: &mut addresses,
            gp_map: &mut gp_map,
        },
        floats: FloatsBuffers {
            f1: &mut f1,
            f2: &mut f2,
            points: &mut points,
        },
        triplets: &mut triplets,
    };
    match study::kernel::read_study(text, buffers) {
        Some(study) => held::put_held(out, study),
        None => asking::put_refused(out, Refusal::Text),
    }
}
