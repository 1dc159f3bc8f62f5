// Comparing an answer with a stored one.
ghost use Rattle.std.specs.Prelude.{◌≡◌};
ghost use Rattle.replay_compare.specs.Sameness.{entries_agree, agree, all_are};

// A value that is held to the stored one. An impl for each type: one for all integers would stand in the way of f64's, and a macro may write none.
pub trait Compared: Copy {
    ghost use Rattle.std.specs.Prelude.{Bool};

    // Whether a value is the stored one.
    ghost agrees: { Self → Self → Bool };

    fn agrees(self, stored: Self) -> bool
        ensures { result ≡ agrees self stored };
}

// By their bits, all NaNs being one.
impl Compared for f64 {
    ghost use Rattle.replay_compare.specs.Sameness.{same_bits};

    ghost agrees = { same_bits };

    fn agrees(self, stored: f64) -> bool {
        text::kernel::bits_of(self) == text::kernel::bits_of(stored)
    }
}

impl Compared for u64 {
    ghost use Rattle.std.specs.Prelude.{eqb};

    ghost agrees = { eqb };

    fn agrees(self, stored: u64) -> bool {
        self == stored
    }
}

impl Compared for u8 {
    ghost use Rattle.std.specs.Prelude.{eqb};

    ghost agrees = { eqb };

    fn agrees(self, stored: u8) -> bool {
        self == stored
    }
}

impl Compared for i64 {
    ghost use Rattle.list_laws.specs.Signed.{eq_z};

    ghost agrees = { eq_z };

    fn agrees(self, stored: i64) -> bool {
        self == stored
    }
}

impl Compared for i8 {
    ghost use Rattle.list_laws.specs.Signed.{eq_z};

    ghost agrees = { eq_z };

    fn agrees(self, stored: i8) -> bool {
        self == stored
    }
}

// Whether the entries of two lists agree, as far as both go.
fn entries_agree<T: Compared>(a: &[T], b: &[T]) -> bool
    ensures { result ≡ entries_agree T.agrees a.now b.now }
{
    a.iter().zip(b).all(|(x, y)| x.agrees(*y))
}

// Whether two lists agree.
pub fn agree<T: Compared>(a: &[T], b: &[T]) -> bool
    ensures { result ≡ agree T.agrees a.now b.now }
{
    a.len() == b.len() && entries_agree(a, b)
}

// Whether each number is the value.
// Beside `agree`, which would need a list of the value over and over, for which memory is taken: this one needs none.
pub fn all_are(a: &[i64], value: i64) -> bool
    ensures { result ≡ all_are a.now value }
{
    a.iter().all(|x| *x == value)
}
