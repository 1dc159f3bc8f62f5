// The fields of a text, read one after the other. A field that is no number, or lies past the end, gives some number.
ghost use Rattle.std.specs.Prelude.{◌≤◌, ◌<◌, ◌*◌, ◌+◌, ◌^◌, ◌≡◌, IsTrue, IfSome, ◌↔◌, eqb, min, length, get_or, take, drop};
ghost use Rattle.std.specs.Float.{binary64};
ghost use Rattle.std.specs.Float.Ieee.{of_bits};
ghost use Rattle.replay_input.specs.Fields.{spelled, passed, count_at, after_count, bits_at, after_bits, whole_at, after_whole, field_place, whole_from, value_from, agrees_from, ListRead};
ghost use Rattle.list_laws.specs.Lists.{tabulate};

use crate::kernel::{at_most, byte_of, flag_of, negative, positive, read_block};
use replay_compare::kernel::Compared;

// A text, and where its next field starts; past the end too, so it is neither the reader of `sections` nor that of `reading`. Functions that read say
// that the text stays: a fact of two moments, which no ghost field can hold. Those that take memory are handed the allocator, which shows that they can fail.
#[derive(Clone, Copy)]
pub struct Reader<'a> {
    pub text: &'a [u8],
    pub at: usize,
}

impl<'a> Reader<'a> {
    // The fields from the front of a text on.
    pub fn new(text: &'a [u8]) -> Reader<'a>
        ensures front { result.at ≡ 0 }
        ensures text { result.text.now ≡ text.now }
    {
        Reader { text, at: 0 }
    }

    // The same text from another place on.
    pub fn from(self, at: usize) -> Reader<'a>
        ensures { result ≡ record self.entry { at = at } }
    {
        Reader {
            text: self.text,
            at,
        }
    }

    // Whether nothing is left.
    pub fn is_at_end(&self) -> bool
        ensures { IsTrue result ↔ (length self.now.text.now ≤ self.now.at) }
    {
        self.text.len() <= self.at
    }

    // What the digits in a base spell up to the first byte that is none, which is passed too; first digits are lost past 64 bits.
    fn next_digits<const BASE: u64, const ROOM: u64>(&mut self) -> u64
        requires { (0 < ROOM) × (ROOM * BASE ≤ 2 ^ 64) }
        ensures value { result ≡ spelled BASE ROOM (drop self.old.at self.old.text.now) 0 }
        ensures next { self.new ≡ record self.old { at = self.old.at + passed BASE (drop self.old.at self.old.text.now) } }
    {
        let mut n: u64 = 0;
        // by index: the place after the byte is where the next field starts
        for i in self.at..self.text.len() {
            let d = text::kernel::digit_of(self.text[i]);
            self.at = i + 1;
            if BASE <= d {
                return n;
            }
            n = n % ROOM * BASE + d;
        }
        n
    }

    // A decimal number with no sign.
    #[tactic(auto, unfolding(crate::specs::Fields::count_at, crate::specs::Fields::after_count))]
    pub fn next_count(&mut self) -> u64
        ensures value { result ≡ count_at self.old.text.now self.old.at }
        ensures next { self.new ≡ record self.old { at = after_count self.old.text.now self.old.at } }
    {
        self.next_digits::<10, 1844674407370955161>()
    }

    // The same in hexadecimal digits.
    #[tactic(auto, unfolding(crate::specs::Fields::bits_at, crate::specs::Fields::after_bits))]
    pub fn next_bits(&mut self) -> u64
        ensures value { result ≡ bits_at self.old.text.now self.old.at }
        ensures next { self.new ≡ record self.old { at = after_bits self.old.text.now self.old.at } }
    {
        self.next_digits::<16, 1152921504606846976>()
    }

    // Whether a minus sign comes next.
    fn is_minus(&self) -> bool
        ensures { result ≡ eqb (get_or self.now.text.now self.now.at 0) 45 }
    {
        self.text.get(self.at).is_some_and(|b| *b == b'-')
    }

    // A whole number: digits, and a minus sign where one stands before them.
    pub fn next_whole(&mut self) -> i64
        ensures value { result ≡ whole_at self.old.text.now self.old.at }
        ensures next { self.new ≡ record self.old { at = after_whole self.old.text.now self.old.at } }
    {
        if self.is_minus() {
            self.at += 1;
            return negative(self.next_count());
        }
        positive(self.next_count())
    }

    // A float by the hexadecimal digits of its bits.
    pub fn next_real(&mut self) -> f64
        ensures value { result ≡ of_bits binary64 (bits_at self.old.text.now self.old.at) }
        ensures next { self.new ≡ record self.old { at = after_bits self.old.text.now self.old.at } }
    {
        text::kernel::float_of(self.next_bits())
    }

    // Three whole numbers, as an address or a mesh.
    pub fn next_three(&mut self) -> [i64; 3]
        ensures value { result ≡ tabulate 3 (whole_from self.old.text.now self.old.at) }
        ensures next { self.new ≡ record self.old { at = field_place (after_whole self.old.text.now) self.old.at 3 } }
    {
        let x = self.next_whole();
        let y = self.next_whole();
        let z = self.next_whole();
        [x, y, z]
    }

    // Fills a buffer, a number a field.
    pub fn fill<T: Field>(&mut self, out: &mut [T])
        ensures filled { out.new ≡ tabulate (length out.old) (value_from T.value_at T.after self.old.text.now self.old.at) }
        ensures next { self.new ≡ record self.old { at = field_place (T.after self.old.text.now) self.old.at (length out.old) } }
    {
        for x in out.iter_mut() {
            *x = T::next(self);
        }
    }

    // Whether the fields that come next, one an entry, agree with a list. All of them are read.
    pub fn agrees_with<T: Field>(&mut self, list: &[T]) -> bool
        ensures agrees { result ≡ agrees_from T.agrees list.now (value_from T.value_at T.after self.old.text.now self.old.at) }
        ensures next { self.new ≡ record self.old { at = field_place (T.after self.old.text.now) self.old.at (length list.now) } }
    {
        let mut agrees = true;
        for x in list {
            agrees &= x.agrees(T::next(self));
        }
        agrees
    }

    // The next bytes as they are, fewer where the text ends before.
    pub fn next_bytes(&mut self, size: u64) -> &'a [u8]
        ensures bytes { result.now ≡ take size (drop self.old.at self.old.text.now) }
        ensures next { self.new ≡ record self.old { at = min self.old.at (length self.old.text.now) + length result.now } }
    {
        let text = self.text;
        let from = self.at.min(text.len());
        let left = &text[from..];
        let bytes = &left[..length_within(size, left)];
        self.at = from + bytes.len();
        bytes
    }

    // A list, its count and then its numbers, to the start of a buffer: how many they are, cut to the buffer's length.
    // The count, not the part that is filled: the contract tells of all of the buffer, also that what is behind the list stays.
    pub fn fill_list<T: Field>(&mut self, out: &mut [T]) -> usize
        ensures count_in_bounds { (result ≤ length out.new) × (result ≡ length (take result out.new)) }
        ensures text { self.new ≡ record self.old { at = self.new.at } }
        ensures list_read { ListRead T.value_at T.after self.old.text.now self.old.at out.old out.new result self.new.at }
    {
        let count = length_within(self.next_count(), out);
        self.fill(&mut out[..count]);
        count
    }
}

// A number that a field spells. An impl for each type, since the notations differ.
pub trait Field: Compared {
    ghost use Rattle.std.specs.Prelude.{ℕ, List};

    // The number of the field at a place of a text.
    ghost value_at: { List ℕ → ℕ → Self };

    // The place after it.
    ghost after: { List ℕ → ℕ → ℕ };

    fn next(reader: &mut Reader<'_>) -> Self
        ensures value { result ≡ value_at reader.old.text.now reader.old.at }
        ensures next { reader.new ≡ record reader.old { at = after reader.old.text.now reader.old.at } };
}

impl Field for i64 {
    ghost use Rattle.replay_input.specs.Fields.{whole_at, after_whole};

    ghost value_at = { whole_at };

    ghost after = { after_whole };

    fn next(reader: &mut Reader<'_>) -> i64 {
        reader.next_whole()
    }
}

impl Field for f64 {
    ghost use Rattle.replay_input.specs.Fields.{real_at, after_bits};

    ghost value_at = { real_at };

    ghost after = { after_bits };

    #[tactic(auto, unfolding(crate::specs::Fields::real_at))]
    fn next(reader: &mut Reader<'_>) -> f64 {
        reader.next_real()
    }
}

// A count of a sheet: hexadecimal digits.
impl Field for u64 {
    ghost use Rattle.replay_input.specs.Fields.{bits_at, after_bits};

    ghost value_at = { bits_at };

    ghost after = { after_bits };

    fn next(reader: &mut Reader<'_>) -> u64 {
        reader.next_bits()
    }
}

// A flag of a sheet.
impl Field for i8 {
    ghost use Rattle.replay_input.specs.Fields.{flag_at, after_whole};

    ghost value_at = { flag_at };

    ghost after = { after_whole };

    #[tactic(auto, unfolding(crate::specs::Fields::flag_at))]
    fn next(reader: &mut Reader<'_>) -> i8 {
        flag_of(reader.next_whole())
    }
}

// A mark of a sheet: decimal digits.
impl Field for u8 {
    ghost use Rattle.replay_input.specs.Fields.{mark_at, after_count};

    ghost value_at = { mark_at };

    ghost after = { after_count };

    #[tactic(auto, unfolding(crate::specs::Fields::mark_at))]
    fn next(reader: &mut Reader<'_>) -> u8 {
        byte_of(reader.next_count())
    }
}

// How much of a buffer a count takes: the count, or all of the buffer where that is shorter.
pub fn length_within<T>(n: u64, buf: &[T]) -> usize
    ensures value { result ≡ min n (length buf.now) }
    ensures in_bounds { (result ≤ length buf.now) × (result ≡ length (take result buf.now)) }
{
    at_most(n, buf.len())
}

// The next block of the input, read into a buffer; none where no block is left. What the input holds is not a proof's to say: only that a block has a byte.
pub fn next_block(buf: &mut [u8]) -> Option<&[u8]>
    ensures { IfSome result (λ block. 0 < length block.now) }
{
    let n = read_block(buf)?;
    // an empty block ends the input too
    if n == 0 {
        return None;
    }
    Some(&buf[..n])
}
