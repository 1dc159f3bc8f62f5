// A study that has passed its questions.
ghost use Rattle.std.specs.Prelude.{◌≡◌};
ghost use Rattle.std.specs.Int.Signed.{mag};
ghost use Rattle.question_grids.specs.Tables.{rows_in};
ghost use Rattle.grid_point_weights.specs.Weights.{Sound};
ghost use Rattle.grid_point_weights.specs.Lent.{lent_study};

use crate::GridPointStudy;
use bzgrid_lookup::{BzGrid, TestedGrid};
use question_grids::Triples;
use tetrahedron_sort::Rows;

// A study that has passed its questions, with its grid, its count of bands and the rows of its table.
#[derive(Clone, Copy)]
pub struct TestedStudy<'a> {
    pub lent: GridPointStudy<'a>,
    pub grid: BzGrid,
    pub bands: usize,
    pub rows: Rows,
    // what questions 4 to 7, 9 and 11 told of it
    pub ghost sound: { Sound (mag lent.num_ir) (lent_study grid bands lent) },
    pub ghost counted: { rows.count ≡ rows_in lent.relative_grid_address.now },
}

impl<'a> TestedStudy<'a> {
    // The grid that it lies on.
    pub fn grid(&self) -> TestedGrid<'a>
        ensures { (result.grid ≡ self.now.grid) × ((result.addresses ≡ self.now.lent.grid.addresses) × (result.gp_map ≡ self.now.lent.grid.gp_map)) }
    {
        TestedGrid {
            grid: self.grid,
            addresses: self.lent.grid.addresses,
            gp_map: self.lent.grid.gp_map,
        }
    }

    // The steps of its neighbour table.
    pub fn steps(&self) -> Triples<'a>
        ensures { result.numbers ≡ self.now.lent.relative_grid_address }
    {
        Triples {
            numbers: self.lent.relative_grid_address,
        }
    }
}
