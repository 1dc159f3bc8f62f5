// What runs work in.
ghost use Rattle.std.specs.Prelude.{◌≡◌};
ghost use Rattle.sheet_fill.specs.Kept.{Kept, study_in};

use crate::PreparedStudy;
use triplet_piece::{Corners, WorkAreas};

// The study of runs, their work areas, and the triplet whose corners are kept in them.
#[derive(Drop)]
pub struct Work<'a> {
    pub prepared: PreparedStudy<'a>,
    pub areas: WorkAreas,
    pub corners: Corners,
    pub held: Option<usize>,
    pub ghost kept: { Kept (study_in prepared) held corners },
}

impl<'a> Work<'a> {
    // Areas that keep the corners of no triplet.
    pub fn new(prepared: PreparedStudy<'a>) -> Work<'a>
        ensures { result.prepared ≡ prepared.entry }
    {
        Work {
            prepared,
            areas: WorkAreas::new(),
            corners: Corners {
                first: [0; 384],
                second: [0; 384],
            },
            held: None,
        }
    }
}
