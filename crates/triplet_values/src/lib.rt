// Corner values of a band pair, and the box of a channel.

#![tactic(auto)]

ghost use Rattle.std.specs.Prelude.{◌≤◌};

pub mod kernel;

// How many corners a work area holds: at most 384. tetrahedron_sort's `Rows` has this shape, but counts rows, with another bound: one type
// for both would not tell rows from corners.
#[derive(Clone, Copy)]
pub struct CornerCount {
    pub count: usize,
    pub ghost few: { count ≤ 384 },
}

// The least and the greatest of a channel's values.
#[derive(Clone, Copy)]
pub struct ValueBox {
    pub fmin: f64,
    pub fmax: f64,
}

// What a channel makes of two frequencies f1 and f2.
#[derive(Clone, Copy)]
pub enum Combination {
    // -f1+f2
    SecondLessFirst,
    // f1-f2
    FirstLessSecond,
    // f1+f2
    Sum,
}

// One band of a list of frequencies, which lie by grid point and band.
#[derive(Clone, Copy)]
pub struct Band<'a> {
    pub frequencies: &'a [f64],
    pub bands: usize,
    pub band: usize,
}
