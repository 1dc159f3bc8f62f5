// Corners of a table and their determinants.
ghost use Rattle.std.specs.Prelude.{◌≡◌, true, ◌+ℤ◌, ◌-ℤ◌, ◌*ℤ◌, ◌<◌, length};
ghost use Rattle.list_laws.specs.Lists.{at};
ghost use Rattle.list_laws.specs.Signed.{within};
ghost use Rattle.table_rules.specs.Rows.{spanned, AllWithin};
ghost use Rattle.table_rules.specs.Faces.{is_same};

// Three whole numbers, none so large that a determinant of three corners would not fit.
#[derive(Clone, Copy)]
pub struct Corner {
    pub numbers: [i64; 3],
    pub ghost long: { length numbers ≡ 3 },
    pub ghost small: { AllWithin 10000 numbers },
}

impl Corner {
    // Component k.
    pub fn component(self, k: usize) -> i64
        requires { k < 3 }
        ensures { result ≡ at self.numbers k }
    {
        self.numbers[k]
    }

    // Whether both lie in one place.
    #[tactic(auto, unfolding(crate::specs::Faces::is_same))]
    pub fn is_same(self, other: Corner) -> bool
        ensures { result ≡ is_same self.numbers other.numbers }
    {
        (self.component(0) == other.component(0))
            & (self.component(1) == other.component(1))
            & (self.component(2) == other.component(2))
    }
}

// The determinant of two rows of two numbers.
fn minor(a: i64, b: i64, c: i64, d: i64) -> i64
    requires { ((within 10000 a ≡ true) × (within 10000 b ≡ true)) × ((within 10000 c ≡ true) × (within 10000 d ≡ true)) }
    ensures value { result ≡ a *ℤ d -ℤ b *ℤ c }
    ensures small { within 200000000 result ≡ true }
{
    a * d - b * c
}

// The determinant whose first row is a corner, by the three minors.
fn expanded(a: Corner, x: i64, y: i64, z: i64) -> i64
    requires { (within 200000000 x ≡ true) × ((within 200000000 y ≡ true) × (within 200000000 z ≡ true)) }
    ensures { result ≡ at a.numbers 0 *ℤ x -ℤ at a.numbers 1 *ℤ y +ℤ at a.numbers 2 *ℤ z }
{
    a.component(0) * x - a.component(1) * y + a.component(2) * z
}

// The determinant of three corners.
pub fn spanned(a: Corner, b: Corner, c: Corner) -> i64
    ensures { result ≡ spanned a.numbers b.numbers c.numbers }
{
    let (b0, b1, b2) = (b.component(0), b.component(1), b.component(2));
    let (c0, c1, c2) = (c.component(0), c.component(1), c.component(2));
    expanded(
        a,
        minor(b1, b2, c1, c2),
        minor(b0, b2, c0, c2),
        minor(b0, b1, c0, c1),
    )
}
