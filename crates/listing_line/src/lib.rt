// One line of a listing, read: its four numbers, its flag and its weights.

#![tactic(auto)]

pub mod kernel;

// Where a line belongs: the triplet, the frequency point and the bands of an entry.
#[derive(Clone, Copy)]
pub struct Place {
    pub triplet: usize,
    pub point: usize,
    pub b1: usize,
    pub b2: usize,
}
