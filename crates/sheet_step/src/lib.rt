// A run sheet, and the questions of the calls on it.

#![tactic(auto)]

ghost use Rattle.std.specs.Prelude.{◌≡◌};

pub mod kernel;

// The buffers of a sheet as a caller lends them: weights, flags and marks. That a call leaves the same buffers is a fact of two moments, which no ghost
// field can hold: the clauses say it. Where no marks are, weights and flags go as two parameters: a struct of both would be made anew for each call.
#[derive(Drop)]
pub struct SheetMut<'a> {
    pub weights: &'a mut [f64],
    pub flags: &'a mut [i8],
    pub marks: &'a mut [u8],
}

impl<'a> SheetMut<'a> {
    // The weights, to read.
    pub fn weights(&self) -> &[f64]
        ensures { result.now ≡ self.now.weights.now }
    {
        self.weights
    }

    // The marks, to read.
    pub fn marks(&self) -> &[u8]
        ensures { result.now ≡ self.now.marks.now }
    {
        self.marks
    }
}

// A piece as a caller names it, any numbers: its triplet and its two bands.
#[derive(Clone, Copy)]
pub struct NamedPiece {
    pub triplet: i64,
    pub b1: i64,
    pub b2: i64,
}
