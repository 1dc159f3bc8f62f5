// A study: its numbers as a caller gives them, tested by questions 3 to 12, and the counts of a tested one.

#![tactic(auto)]

ghost use Rattle.std.specs.Prelude.{◌≡◌, IfOk};
ghost use Rattle.ask.specs.Ask.{first_no};
ghost use Rattle.ask.specs.Refusals.{answer_of};
ghost use Rattle.triplet_study.specs.Questions.{study_questions};
ghost use Rattle.triplet_study.specs.Lent.{study_of, lent_grid};
ghost use Rattle.triplet_study.specs.Passed.{without_value};

use ask::Refusal;
use bzgrid_lookup::BzGrid;
use question_grids::Grid;
use triplet_types::TpType;

pub mod kernel;
mod tested;

pub use tested::{CountedSizes, CountedStudy, TestedSteps, TestedStudy};

// The numbers of a study: any values, tested by the questions.
#[repr(C)]
#[derive(Clone, Copy)]
pub struct Shape {
    pub bz_grid_type: i64,
    pub d_diag: [i64; 3],
    pub tp_type: i64,
    pub num_band1: i64,
    pub num_band2: i64,
}

// A study as a caller lends it: its numbers, and its lists.
#[derive(Clone, Copy)]
pub struct Study<'a> {
    pub shape: Shape,
    pub addresses: &'a [i64],
    pub gp_map: &'a [i64],
    pub relative_grid_address: &'a [i64],
    pub frequencies1: &'a [f64],
    pub frequencies2: &'a [f64],
    pub frequency_points: &'a [f64],
    pub triplets: &'a [i64],
}

impl<'a> Study<'a> {
    // The grid that it lies on.
    pub fn grid(self) -> Grid<'a>
        ensures { result ≡ lent_grid self.entry }
    {
        let d_diag = self.shape.d_diag;
        Grid {
            bz_grid_type: self.shape.bz_grid_type,
            d_diag,
            addresses: self.addresses,
            gp_map: self.gp_map,
        }
    }

    // The study with its counts, once it has passed questions 3 to 11.
    pub fn tested(self) -> Result<TestedStudy<'a>, Refusal>
        ensures asked { without_value result ≡ answer_of (first_no (study_questions (study_of self.entry))) tt }
        ensures same { IfOk result (λ t. t.study ≡ self.entry) }
    {
        kernel::ask_study(self)?;
        let sizes = kernel::sizes_of_passed(self);
        Ok(TestedStudy { study: self, sizes })
    }
}

// The counts of a tested study. Weights lie by channel, triplet, point, b1, b2; flags without the channel.
#[derive(Clone, Copy)]
pub struct Sizes {
    pub channels: usize,
    pub triplets: usize,
    pub points: usize,
    pub bands1: usize,
    pub bands2: usize,
    // how many band pairs, and how many flags
    pub pairs: usize,
    pub cells: usize,
    // the rows of its table, its type and its grid, and the numbers as given
    pub rows: usize,
    pub tp: TpType,
    pub grid: BzGrid,
    pub shape: Shape,
}
