// Answers the texts of standard input one after the other. Each is a line of six digits, how many bytes it has, and then those bytes.

#![tactic(auto)]

use replay_input::kernel::read_part;
use replay_input::reader::Reader;

// Answers the next text; false where there is none. Of one that is longer than the buffer nothing is read: it is answered as an empty one, and what
// stands next is taken for the head of another.
fn next_text() -> bool {
    let mut head = [0u8; 7];
    if io::read_full(0, &mut head) < 7 {
        return false;
    }
    let size = Reader::new(&head).next_count();
    let mut text = io::large_buffer();
    let n = read_part(&mut text, size as usize);
    // as long as the longest answer
    let mut out = [0; 118617];
    let k = answer::answer(&text[..n], &mut out);
    io::write_all(1, &out[..k]);
    true
}

fn main() {
    for _ in 0..10000 {
        if !next_text() {
            return;
        }
    }
}
