// A grid that has passed its questions.
ghost use Rattle.std.specs.Prelude.{◌≡◌, ◌<◌};
ghost use Rattle.ask.specs.Ask.{first_no};
ghost use Rattle.question_grids.specs.Grids.{triples_in, questions_on};
ghost use Rattle.bzgrid_lookup.specs.Neighbours.{SoundGrid, grid_of, neighbour_of, wanted_address};

use crate::BzGrid;
use question_grids::{Grid, Triples};

// A grid that has passed questions 3 to 6.
#[derive(Clone, Copy)]
pub struct TestedGrid<'a> {
    pub grid: BzGrid,
    pub addresses: &'a [i64],
    pub gp_map: &'a [i64],
    // each of the questions is answered yes
    pub ghost sound: { SoundGrid grid addresses.now gp_map.now },
}

impl<'a> TestedGrid<'a> {
    pub fn new(grid: Grid<'a>) -> TestedGrid<'a>
        requires { first_no (questions_on grid) ≡ 0 }
        ensures { (result.grid ≡ grid_of grid.entry.bz_grid_type grid.entry.d_diag) × ((result.addresses ≡ grid.entry.addresses) × (result.gp_map ≡ grid.entry.gp_map)) }
    {
        let d_diag = grid.d_diag;
        TestedGrid {
            grid: crate::kernel::grid_of(grid.bz_grid_type, d_diag),
            addresses: grid.addresses,
            gp_map: grid.gp_map,
        }
    }

    // The number of the neighbour of point g at step j.
    pub fn neighbour(&self, steps: Triples, g: usize, j: usize) -> usize
        requires { (g < triples_in self.now.addresses.now) × (j < triples_in steps.numbers.now) }
        ensures { result ≡ neighbour_of self.now.grid self.now.addresses.now self.now.gp_map.now (wanted_address self.now.addresses.now steps.entry.numbers.now g j) }
    {
        let grid = self.grid;
        crate::kernel::neighbour(grid, self.addresses, self.gp_map, steps.numbers, g, j)
    }
}
