// The BZ grid, of both kinds: the number of the grid point that stands for an address.

#![tactic(auto)]

pub mod kernel;

pub use kernel::tested::TestedGrid;

// The kind of a grid, tested: 1 is sparse (the map indexes the doubled mesh), 2 is dense (the map holds where each group starts).
#[derive(Clone, Copy)]
pub enum GridKind {
    Sparse,
    Dense,
}

// What a tested grid is besides its addresses and its map.
#[derive(Clone, Copy)]
pub struct BzGrid {
    pub kind: GridKind,
    pub mesh: numbers::Mesh,
}
