// A study that has passed its questions.
ghost use Rattle.std.specs.Prelude.{◌≡◌, ◌≤◌, length};
ghost use Rattle.triplet_study.specs.Study.{sizes_of};
ghost use Rattle.triplet_study.specs.Questions.{are_lengths};
ghost use Rattle.triplet_study.specs.Lent.{study_of};
ghost use Rattle.triplet_study.specs.Tested.{Tested, Counted};

use crate::{Sizes, Study};
use bzgrid_lookup::TestedGrid;
use question_grids::Triples;

// Steps that have passed question 7, or a copy of them.
#[derive(Clone, Copy)]
pub struct TestedSteps<'a> {
    pub triples: Triples<'a>,
    pub ghost few: { length triples.numbers.now ≤ 1152 },
}

// A study that has passed questions 3 to 11, with its counts.
#[derive(Clone, Copy)]
pub struct TestedStudy<'a> {
    pub study: Study<'a>,
    pub sizes: Sizes,
    // what the questions told
    pub ghost told: { Tested (study_of study) },
    pub ghost counts: { sizes ≡ sizes_of (study_of study) },
}

// Counts that a study can have: within the limits of question 9, each as many as the others have it.
#[derive(Clone, Copy)]
pub struct CountedSizes {
    pub sizes: Sizes,
    pub ghost counted: { Counted sizes },
}

impl CountedSizes {
    // Question 12, of weights and flags.
    pub fn lengths_ok(self, weights: usize, flags: usize) -> bool
        ensures { result ≡ are_lengths self.sizes weights flags }
    {
        let cells = self.sizes.cells;
        let entries = self.sizes.channels * cells;
        (weights == entries) & (flags == cells)
    }
}

// What a piece reads of a study beside its corners: its counts, and its values.
#[derive(Clone, Copy)]
pub struct CountedStudy<'a> {
    pub sizes: Sizes,
    pub frequencies1: &'a [f64],
    pub frequencies2: &'a [f64],
    pub frequency_points: &'a [f64],
    // within the limits of question 9, each as many as the others have it
    pub ghost counted: { Counted sizes },
}

impl<'a> TestedStudy<'a> {
    // Its counts and its values.
    pub fn counted(&self) -> CountedStudy<'a>
        ensures sizes { result.sizes ≡ self.now.sizes }
        ensures values { (result.frequencies1 ≡ self.now.study.frequencies1) × ((result.frequencies2 ≡ self.now.study.frequencies2) × (result.frequency_points ≡ self.now.study.frequency_points)) }
    {
        CountedStudy {
            sizes: self.sizes,
            frequencies1: self.study.frequencies1,
            frequencies2: self.study.frequencies2,
            frequency_points: self.study.frequency_points,
        }
    }

    // The grid that it lies on.
    pub fn grid(&self) -> TestedGrid<'a>
        ensures { (result.grid ≡ self.now.sizes.grid) × ((result.addresses ≡ self.now.study.addresses) × (result.gp_map ≡ self.now.study.gp_map)) }
    {
        TestedGrid {
            grid: self.sizes.grid,
            addresses: self.study.addresses,
            gp_map: self.study.gp_map,
        }
    }

    // The steps of its neighbour table.
    pub fn steps(&self) -> TestedSteps<'a>
        ensures { result.triples.numbers ≡ self.now.study.relative_grid_address }
    {
        let triples = Triples {
            numbers: self.study.relative_grid_address,
        };
        TestedSteps { triples }
    }

    // Its counts.
    pub fn counted_sizes(&self) -> CountedSizes
        ensures { result.sizes ≡ self.now.sizes }
    {
        CountedSizes { sizes: self.sizes }
    }

    // Question 12, of weights and flags.
    pub fn lengths_ok(&self, weights: usize, flags: usize) -> bool
        ensures { result ≡ are_lengths self.now.sizes weights flags }
    {
        self.counted_sizes().lengths_ok(weights, flags)
    }
}
