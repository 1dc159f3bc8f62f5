// Neighbouring grid points of a BZ grid, of one point and of many.

#![tactic(auto)]

ghost use Rattle.bzgrid.specs.Calls.{around_of, DidFind, DidFindAll};

pub use ask::Refusal;
use bzgrid_lookup::TestedGrid;
pub use question_grids::Grid;
use question_grids::Triples;
use question_grids::kernel::grid::ask_grid;

pub mod kernel;

// The neighbours of one grid point along a list of relative grid addresses: those of a list of one. Questions 3, 4, 5, 6, 7, 10, 12.
pub fn fill_neighboring_grid_points(
    out: &mut [i64],
    grid_point: i64,
    relative_grid_address: &[i64],
    grid: Grid,
) -> Result<(), Refusal>
    ensures { DidFind (around_of grid.entry relative_grid_address) grid_point result out.old out.new }
{
    neighboring_grid_points_many(out, &[grid_point], relative_grid_address, grid)
}

// The neighbours of many grid points: those of each in turn. Questions 3, 4, 5, 6, 7, 9, 10, 12.
pub fn neighboring_grid_points_many(
    out: &mut [i64],
    grid_points: &[i64],
    relative_grid_address: &[i64],
    grid: Grid,
) -> Result<(), Refusal>
    ensures { DidFindAll (around_of grid.entry relative_grid_address) grid_points.now result out.old out.new }
{
    ask_grid(grid)?;
    let p = grid.addresses.len() / 3;
    kernel::ask_points(grid_points, relative_grid_address, p, out.len())?;
    let tested = TestedGrid::new(grid);
    let steps = Triples {
        numbers: relative_grid_address,
    };
    kernel::fill_many(out, grid_points, steps, tested);
    Ok(())
}
