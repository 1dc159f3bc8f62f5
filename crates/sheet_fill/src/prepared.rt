// A study on which runs work.
ghost use Rattle.std.specs.Prelude.{◌≡◌};
ghost use Rattle.triplet_corners.specs.Corners.{second_area, second_steps};

use triplet_study::TestedStudy;

// A tested study with the second copy of its steps, made once for all runs.
#[derive(Clone, Copy)]
pub struct PreparedStudy<'a> {
    pub tested: TestedStudy<'a>,
    pub second: &'a [i64],
    pub ghost copy: { second.now ≡ second_steps tested.sizes.tp tested.study.relative_grid_address.now },
}

impl<'a> PreparedStudy<'a> {
    // With the copy that stands in front of an array.
    pub fn new(tested: TestedStudy<'a>, copy: &'a [i64; 1152]) -> PreparedStudy<'a>
        requires { copy.now ≡ second_area tested.sizes.tp tested.study.relative_grid_address.now }
        ensures { result.tested ≡ tested.entry }
    {
        let steps = tested.study.relative_grid_address;
        PreparedStudy {
            tested,
            second: &copy[..steps.len()],
        }
    }
}
