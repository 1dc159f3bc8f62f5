// The lines of a study that stand once, read from its text: question 1 of document 01.

#![tactic(auto)]

pub mod kernel;

// The numbers of the lines that stand once: `grid`, `diag`, `type`, `bands`.
#[derive(Clone, Copy, PartialEq, Eq, Debug)]
pub struct Head {
    pub bz_grid_type: i64,
    pub d0: i64,
    pub d1: i64,
    pub d2: i64,
    pub diag: i64,
    pub tp_type: i64,
    pub num_band1: i64,
    pub num_band2: i64,
}
