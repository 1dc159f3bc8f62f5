// What the channels of a frequency point give.

#![tactic(auto)]

pub mod kernel;

// What a piece writes at a point: a weight for each output channel, 0.0 behind the last, and the flag.
#[derive(Clone, Copy)]
pub struct Outputs {
    pub w0: f64,
    pub w1: f64,
    pub w2: f64,
    pub flag: i8,
}
