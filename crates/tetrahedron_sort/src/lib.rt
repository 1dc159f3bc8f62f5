// The sort of tetrahedron_method.rs: a row's four values in ascending order, and where its first value lands.

#![tactic(auto)]

ghost use Rattle.std.specs.Prelude.{◌≡◌, ◌*◌, ◌≤◌};

pub mod kernel;

// How many rows of four corners a work area holds: at most 96. Not triplet_values' `CornerCount`, which counts corners.
#[derive(Clone, Copy)]
pub struct Rows {
    pub count: usize,
    pub ghost few: { count ≤ 96 },
}

impl Rows {
    // How many corners they have.
    pub fn corners(self) -> usize
        ensures { result ≡ self.count * 4 }
    {
        self.count * 4
    }
}

// The four values in ascending order, and the place of the first.
#[derive(Clone, Copy)]
pub struct SortedOmegas {
    pub omegas: [f64; 4],
    pub place: usize,
}
