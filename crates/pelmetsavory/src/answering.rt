// What the program `weights` prints, as a call.
ghost use Rattle.std.specs.Prelude.{◌≡◌, length};
ghost use Rattle.answer.specs.Texts.{answer_of, answered};

// Writes the answer to a text at the start of `out`, and tells how many bytes it has: the listing of its study, or its refusal.
// Questions 1, 3, 4, 5, 6, 8, 9, 10, 11.
#[unsafe(no_mangle)]
pub extern "C" fn pelmetsavory_answer(text: &[u8], out: &mut [u8; 118617]) -> usize
    ensures value { result ≡ length (answer_of text.now) }
    ensures out_after { out.new ≡ answered (answer_of text.now) out.old }
{
    answer::answer(text, out)
}
