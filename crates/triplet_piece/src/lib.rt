// One piece of a study: the weights and flags of a triplet and a band pair at every frequency point.

#![tactic(auto)]

ghost use Rattle.triplet_piece.specs.Zeros.{IsZeros, AreZeros};

use triplet_channels::{Channel, Channels};
use triplet_values::ValueBox;

pub mod kernel;

// A piece of a tested study: a triplet and a band of each list of frequencies.
#[derive(Clone, Copy)]
pub struct Piece {
    pub triplet: usize,
    pub b1: usize,
    pub b2: usize,
}

// The corners of a triplet: of its second point by the neighbour table, of its third by the second copy of the table.
#[derive(Clone, Copy)]
pub struct Corners {
    pub first: [usize; 384],
    pub second: [usize; 384],
}

// What pieces are worked out in: the frequencies of both bands at the corners, and the three channels.
#[derive(Clone, Copy)]
pub struct WorkAreas {
    pub frequencies1: [f64; 384],
    pub frequencies2: [f64; 384],
    pub channels: Channels,
}

// A channel of zeros.
fn zeros() -> Channel
    ensures { IsZeros result }
{
    Channel {
        values: [0.0; 384],
        places: [0; 96],
        bounds: ValueBox {
            fmin: 0.0,
            fmax: 0.0,
        },
    }
}

impl WorkAreas {
    // Areas of zeros.
    pub fn new() -> WorkAreas
        ensures { AreZeros result }
    {
        WorkAreas {
            frequencies1: [0.0; 384],
            frequencies2: [0.0; 384],
            channels: Channels {
                first: zeros(),
                second: zeros(),
                third: zeros(),
            },
        }
    }
}
