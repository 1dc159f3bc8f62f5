// The readers of one field, the search for a byte, and a float and its bits.
ghost use Rattle.std.specs.Prelude.{◌+◌, ◌<◌, ◌≤◌, ◌≡◌, drop, length};
ghost use Rattle.std.specs.Float.{binary64};
ghost use Rattle.std.specs.Float.Ieee.{of_bits, to_bits};
ghost use Rattle.text.specs.Fields.{bits, digit_of, magnitude, negative, positive, value, whole};
ghost use Rattle.text.specs.Pieces.{index};

// What a byte counts as a digit; 16 where it is none. The tests are joined before the one branch: which digit it is cannot be foretold.
// No Option: 16 is no digit of a base up to 16, so that a caller's one test refuses what is no digit and what is none of its base.
#[tactic(auto, using(crate::proofs::FieldLaws::digit_laws))]
pub fn digit_of(b: u8) -> u64
    ensures value { result ≡ digit_of b }
    ensures upper_bound { result ≤ 16 }
{
    let decimal = (48 <= b) & (b <= 57);
    let letter = (97 <= b) & (b <= 102);
    if decimal | letter {
        return (b % 16 + 9 * (b / 64)) as u64;
    }
    16
}

// The digits of s in a base as one number, if each byte is one and the number is at most the limit.
#[tactic(auto, using(crate::proofs::FieldLaws::value_laws))]
fn parse_digits(s: &[u8], base: u64, limit: u64) -> Option<u64>
    requires { (1 < base) × (base ≤ 16) × (16 ≤ limit) }
    ensures { result ≡ value base limit s.now 0 }
{
    let mut n: u64 = 0;
    for b in s {
        let d = digit_of(*b);
        if base <= d {
            return None;
        }
        let most = (limit - d) / base;
        if most < n {
            return None;
        }
        n = n * base + d;
    }
    Some(n)
}

// The decimal digits of s as one number, with no zeros in front.
#[tactic(auto, using(crate::proofs::FieldLaws::magnitude_laws))]
fn parse_magnitude(s: &[u8]) -> Option<u64>
    ensures { result ≡ magnitude s.now }
{
    match s {
        [] | [b'0', _, ..] => None,
        _ => parse_digits(s, 10, 1 << 63),
    }
}

// Sixteen hexadecimal digits as one number.
#[tactic(auto, using(crate::proofs::FieldLaws::bits_in, crate::proofs::FieldLaws::bits_out))]
pub fn parse_bits(s: &[u8]) -> Option<u64>
    ensures { result ≡ bits s.now }
{
    if s.len() != 16 {
        return None;
    }
    parse_digits(s, 16, u64::MAX)
}

// A magnitude with no sign before it.
#[tactic(auto, using(crate::proofs::FieldLaws::converted))]
fn positive_whole(n: u64) -> Option<i64>
    ensures { result ≡ positive (Some n) }
{
    i64::try_from(n).ok()
}

// A magnitude with a minus sign before it.
#[tactic(auto, using(crate::proofs::FieldLaws::negative_laws))]
fn negative_whole(n: u64) -> Option<i64>
    ensures { result ≡ negative (Some n) }
{
    if n == 0 {
        return None;
    }
    let below = i64::try_from(n - 1).ok()?;
    Some(-1 - below)
}

// The whole number that the field s spells.
#[tactic(auto, using(crate::proofs::FieldLaws::whole_laws))]
pub fn parse_whole(s: &[u8]) -> Option<i64>
    ensures { result ≡ whole s.now }
{
    match s {
        [b'-', digits @ ..] => negative_whole(parse_magnitude(digits)?),
        _ => positive_whole(parse_magnitude(s)?),
    }
}

// The index of the first b in s, or the length of s where there is none.
fn index_of(s: &[u8], b: u8) -> usize
    ensures value { result ≡ index b s.now }
    ensures within { result ≤ length s.now }
{
    s.iter().position(|x| *x == b).unwrap_or(s.len())
}

// The index of the first b in s from index p on, or the length of s where there is none. A place and not the part from p on: the callers cut at the
// answer and go on behind it, both in all of s.
pub fn cut(s: &[u8], p: usize, b: u8) -> usize
    requires { p ≤ length s.now }
    ensures { (result ≡ p + index b (drop p s.now)) × (p ≤ result) × (result ≤ length s.now) }
{
    p + index_of(&s[p..], b)
}

// The float of a bit pattern, every one: a NaN's pattern gives a NaN.
pub fn float_of(pattern: u64) -> f64
    ensures { result ≡ of_bits binary64 pattern }
{
    if 9218868437227405312 < pattern % 9223372036854775808 {
        return 0.0 / 0.0;
    }
    f64::from_bits(pattern)
}

// The bit pattern of a float; of a NaN the positive one whose fraction is its highest digit alone.
pub fn bits_of(x: f64) -> u64
    ensures { result ≡ to_bits binary64 x }
{
    if x == x {
        return f64::to_bits(x);
    }
    9221120237041090560
}
