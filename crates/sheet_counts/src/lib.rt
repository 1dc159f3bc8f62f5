// The counts of a sheet as a caller gives them: questions 8 and 9 of its type and counts, and how many entries they make.

#![tactic(auto)]

pub mod kernel;

// The counts of a sheet, any numbers: triplets, frequency points, bands of the second point and of the third.
#[repr(C)]
#[derive(Clone, Copy)]
pub struct Counts {
    pub num_triplets: i64,
    pub num_band0: i64,
    pub num_band1: i64,
    pub num_band2: i64,
}
