// How many numbers each section of a text has, where they are at the starts of a caller's buffers.
ghost use Rattle.std.specs.Prelude.{◌≤◌, ◌≡◌, length};
ghost use Rattle.study.specs.Told.{floats_at, floats_lists, floats_within, grid_at, grid_lists, grid_within};

use crate::{FloatsText, GridText, Head};

// Of the sections `addr` and `map`.
#[derive(Clone, Copy)]
pub struct GridCounts {
    pub addresses: usize,
    pub gp_map: usize,
}

// Of the sections `f1`, `f2` and `point`.
#[derive(Clone, Copy)]
pub struct FloatsCounts {
    pub f1: usize,
    pub f2: usize,
    pub points: usize,
}

// Of a study, with its head.
#[derive(Clone, Copy)]
pub struct StudyCounts {
    pub head: Head,
    pub grid: GridCounts,
    pub floats: FloatsCounts,
    pub triplets: usize,
}

impl GridCounts {
    // The sections themselves.
    pub fn cut<'b>(self, addresses: &'b [i64], gp_map: &'b [i64]) -> GridText<'b>
        requires { grid_within self addresses.now gp_map.now }
        ensures { grid_lists result ≡ grid_at self addresses.now gp_map.now }
    {
        GridText {
            addresses: &addresses[..self.addresses],
            gp_map: &gp_map[..self.gp_map],
        }
    }
}

impl FloatsCounts {
    // The sections themselves.
    pub fn cut<'b>(self, f1: &'b [u64], f2: &'b [u64], points: &'b [u64]) -> FloatsText<'b>
        requires { floats_within self f1.now f2.now points.now }
        ensures { floats_lists result ≡ floats_at self f1.now f2.now points.now }
    {
        FloatsText {
            f1: &f1[..self.f1],
            f2: &f2[..self.f2],
            points: &points[..self.points],
        }
    }
}
