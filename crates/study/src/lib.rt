// The study that a text holds: question 1 of document 01.

#![tactic(auto)]

mod buffers;
mod counts;
pub mod kernel;

pub use buffers::StudyBuffers;
pub use counts::{FloatsCounts, GridCounts, StudyCounts};
pub use study_head::Head;

// The sections `addr` and `map` of a text.
#[derive(Clone, Copy)]
pub struct GridText<'a> {
    pub addresses: &'a [i64],
    pub gp_map: &'a [i64],
}

// The sections `f1`, `f2` and `point`, each float by its bits.
#[derive(Clone, Copy)]
pub struct FloatsText<'a> {
    pub f1: &'a [u64],
    pub f2: &'a [u64],
    pub points: &'a [u64],
}

// A study as its text holds it.
#[derive(Clone, Copy)]
pub struct HeldStudy<'a> {
    pub head: Head,
    pub grid: GridText<'a>,
    pub floats: FloatsText<'a>,
    pub triplets: &'a [i64],
}

// Room for the sections `addr` and `map`.
#[derive(Drop)]
pub struct GridBuffers<'b> {
    pub addresses: &'b mut [i64],
    pub gp_map: &'b mut [i64],
}

// Room for the sections `f1`, `f2` and `point`.
#[derive(Drop)]
pub struct FloatsBuffers<'b> {
    pub f1: &'b mut [u64],
    pub f2: &'b mut [u64],
    pub points: &'b mut [u64],
}
