// The tetrahedron method at grid points: integration weights by grid point, frequency point and band.

#![tactic(auto)]

ghost use Rattle.grid_point_weights.specs.Calls.{call_of, DidWeigh};

pub use ask::Refusal;
pub use question_grids::Grid;
use tetrahedron_method::WeightFunction;

mod asks;
mod band;
mod corners;
mod fill;
pub mod kernel;
mod tested;

// What the weights at grid points are made from, as a caller lends it; num_ir is R, the count of irreducible points.
#[derive(Clone, Copy)]
pub struct GridPointStudy<'a> {
    pub grid: Grid<'a>,
    pub relative_grid_address: &'a [i64],
    pub gp2irgp_map: &'a [i64],
    pub num_ir: i64,
    pub num_band: i64,
    pub frequencies: &'a [f64],
    pub frequency_points: &'a [f64],
    pub function: WeightFunction,
}

// The integration weights of each band at each frequency point, for each of the grid points in turn. Questions 3, 4, 5, 6, 7, 9, 10, 11, 12.
pub fn integration_weights_at_grid_points(
    study: GridPointStudy,
    grid_points: &[i64],
    iw: &mut [f64],
) -> Result<(), Refusal>
    ensures { DidWeigh (call_of study.entry grid_points.now) result iw.old iw.new }
{
    asks::ask_weights(study, grid_points, iw)?;
    kernel::weigh(study, grid_points, iw);
    Ok(())
}
