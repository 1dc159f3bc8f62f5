// What the points of a triplet give at a frequency point.

#![tactic(auto)]

use triplet_values::ValueBox;

pub mod kernel;

// A channel of a piece: the rows of its values in order, the places of their first values, and the box of all values.
#[derive(Clone, Copy)]
pub struct Channel {
    pub values: [f64; 384],
    pub places: [usize; 96],
    pub bounds: ValueBox,
}

// The three channels of a piece: -f1+f2, f1-f2 and f1+f2. Type 4 has the first alone.
#[derive(Clone, Copy)]
pub struct Channels {
    pub first: Channel,
    pub second: Channel,
    pub third: Channel,
}
