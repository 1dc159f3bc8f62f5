// Reads a study from standard input, and writes its listing or its refusal to standard output.

#![tactic(auto)]

ghost use Rattle.std.specs.Prelude.{◌≡◌, ◌≤◌, length};

use std::io;
use std::io::Read;

// One byte more than a study may have, so that a longer input is seen to be longer.
fn text_buffer() -> [u8; 16385]
    ensures { 16385 ≡ length result }
{
    [0; 16385]
}

// One read into the text from `done` on: how many of its bytes count as read afterwards. Where the read fails all of them do: that is
// longer than a study, so the answer is the refusal with 1, whatever was read before.
fn read_more(input: &mut impl Read, text: &mut [u8], done: usize) -> usize
    requires { done ≤ length text.old }
    ensures lower_bound { done ≤ result }
    ensures upper_bound { result ≤ length text.new }
    ensures text_len_unchanged { length text.new ≡ length text.old }
{
    let all = text.len();
    let rest = &mut text[done..];
    match input.read(rest) {
        Ok(got) => done + got,
        Err(_) => all,
    }
}

// Reads until the input ends, a read fails or the text is full: how many of its bytes count as read.
fn read_text(input: &mut impl Read, text: &mut [u8]) -> usize
    ensures upper_bound { result ≤ length text.new }
    ensures text_len_unchanged { length text.new ≡ length text.old }
{
    let mut done = 0;
    while done < text.len() {
        let next = read_more(input, text, done);
        if next == done {
            break;
        }
        done = next;
    }
    done
}

fn main(rt: HostRuntime) -> io::Result<()> {
    let mut text = text_buffer();
    // as long as the longest answer
    let mut out = [0; 118617];
    let n = read_text(&mut rt.stdin(), &mut text);
    let k = answer::answer(&text[..n], &mut out);
    rt.write_all(&out[..k])
}
