// The questions of document 01 about a grid, its steps and its table, and how questions are asked in order.

#![tactic(auto)]

ghost use Rattle.std.specs.Prelude.{◌≡◌, true};
ghost use Rattle.question_grids.specs.Grids.{are_triples};

pub mod kernel;

// A grid as it is lent: its kind, its mesh numbers, its addresses and the map from mesh points to them.
#[derive(Clone, Copy)]
pub struct Grid<'a> {
    pub bz_grid_type: i64,
    pub d_diag: [i64; 3],
    pub addresses: &'a [i64],
    pub gp_map: &'a [i64],
}

// A flat list of triples, tested.
#[derive(Clone, Copy)]
pub struct Triples<'a> {
    pub numbers: &'a [i64],
    // whole triples with components within ±4,096
    pub ghost tested: { are_triples numbers.now ≡ true },
}
