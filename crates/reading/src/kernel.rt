// What a reader passes over where it stands in the text. Where something else stands the answer is none, and where the reader is then is of no use.
ghost use Rattle.std.specs.Prelude.{◌+◌, ◌≤◌, [], ◌∷◌, ◌++◌, ◌≡◌, length};
ghost use Rattle.io.specs.Digits.{last_digits};
ghost use Rattle.text.specs.Spelled.{decimal, places};

// A text, and how many of its first bytes are read.
#[derive(Clone, Copy)]
pub struct Reader<'a> {
    pub text: &'a [u8],
    pub at: usize,
    // never more than it has
    pub ghost within: { at ≤ length text.now },
}

// How many decimal digits a number has.
#[tactic(auto, using(crate::proofs::DigitLaws::places_laws))]
fn places_of(n: u64) -> usize
    ensures { result ≡ places 19 n }
{
    if n < 10 {
        return 1;
    }
    n.ilog10() as usize + 1
}

impl<'a> Reader<'a> {
    ghost use Rattle.reading.specs.Passes.{Passes};

    // At the front of a text.
    pub fn new(text: &'a [u8]) -> Reader<'a>
        ensures front { result.at ≡ 0 }
        ensures text { result.text ≡ text.entry }
    {
        Reader { text, at: 0 }
    }

    // Goes on by n bytes, whatever they are.
    pub fn skip(&mut self, n: usize)
        requires { self.old.at + n ≤ length self.old.text.now }
        ensures at { self.new.at ≡ self.old.at + n }
        ensures text { self.new.text ≡ self.old.text }
    {
        self.at += n;
    }

    // Passes over src.
    pub fn pass_slice(&mut self, src: &[u8]) -> Option<()>
        ensures { Passes src.now self.old self.new result }
    {
        if !self.text[self.at..].starts_with(src) {
            return None;
        }
        self.at += src.len();
        Some(())
    }

    // Passes over one byte.
    pub fn pass_byte(&mut self, b: u8) -> Option<()>
        ensures { Passes (b ∷ []) self.old self.new result }
    {
        if *self.text.get(self.at)? != b {
            return None;
        }
        self.at += 1;
        Some(())
    }

    // Passes over the last k decimal digits of a number, zeros in front where it has fewer: the last is compared first.
    fn pass_digits(&mut self, n: u64, k: usize) -> Option<()>
        ensures { Passes (last_digits 10 k n) self.old self.new result }
    {
        let at = self.at;
        if self.text.len() - at < k {
            return None;
        }
        let mut m = n;
        for i in (0..k).rev() {
            if self.text[at + i] != (48 + m % 10) as u8 {
                return None;
            }
            m = m / 10;
        }
        self.at = at + k;
        Some(())
    }

    // Passes over a number in decimal, and a byte after it.
    pub fn pass_decimal(&mut self, n: u64, end: u8) -> Option<()>
        ensures { Passes (decimal n ++ (end ∷ [])) self.old self.new result }
    {
        self.pass_digits(n, places_of(n))?;
        self.pass_byte(end)
    }
}
