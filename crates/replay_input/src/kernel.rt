// What the readers stand on: signs, counts, flags and blocks. `flag_of` and `byte_of` give some number for a field that is none, as the readers do.
pub mod stamps;

ghost use Rattle.std.specs.Prelude.{◌≤◌, min, ◌≡◌, length, take, IfSome};
ghost use Rattle.replay_input.specs.Fields.{negated, plain, flag_of};

use crate::reader::{Reader, length_within};

// A magnitude with no sign, kept to 63 bits.
pub(crate) fn positive(n: u64) -> i64
    ensures { result ≡ plain n }
{
    (n % 9223372036854775808) as i64
}

// A magnitude with a minus sign.
pub(crate) fn negative(n: u64) -> i64
    ensures { result ≡ negated n }
{
    if n == 0 {
        return 0;
    }
    let less = (n - 1) % 9223372036854775808;
    -1 - (less as i64)
}

// The flags that occur; -128 for any other number.
pub(crate) fn flag_of(n: i64) -> i8
    ensures { result ≡ flag_of n }
{
    match n {
        0 => 0,
        1 => 1,
        2 => 2,
        5 => 5,
        9 => 9,
        -1 => -1,
        127 => 127,
        _ => -128,
    }
}

// A byte; 255 for any larger number.
pub(crate) fn byte_of(n: u64) -> u8
    ensures { result ≡ min n 255 }
{
    n.min(255) as u8
}

// A count that a buffer of length most can hold.
pub fn at_most(n: u64, most: usize) -> usize
    ensures upper_bound { result ≤ most }
    ensures value { result ≡ min n most }
{
    if n < most as u64 { n as usize } else { most }
}

// Reads the next block to the start of buf, and answers how many bytes it has; none where no block is left.
pub fn read_block(buf: &mut [u8]) -> Option<usize>
    ensures { IfSome result (λ n. (n ≤ length buf.new) × (n ≡ length (take n buf.new))) }
{
    let mut head = [0u8; 7];
    let got = io::read_full(0, &mut head);
    if got < 7 {
        return None;
    }
    let n = length_within(Reader::new(&head).next_count(), buf);
    Some(read_part(buf, n))
}

// Reads n bytes to the start of buf and answers how many there were; none where buf is shorter.
// n is what the input says: a slice cut to it would ask of the caller that it is no more than the buffer's length.
pub fn read_part(buf: &mut [u8], n: usize) -> usize
    ensures { (result ≤ length buf.new) × (result ≡ length (take result buf.new)) }
{
    if n <= buf.len() {
        return io::read_full(0, &mut buf[..n]);
    }
    0
}
