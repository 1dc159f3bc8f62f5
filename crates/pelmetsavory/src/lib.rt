// What programs in other languages call: each public entry under its C name. A status is 0, or the number of the first question
// that is answered no; a refused call leaves every buffer as it was. `pelmetsavory_answer` alone has no status: its refusal is text.
// Parameters lie side by side and answers are numbers, as C has them. Each call makes its study and its sheet from them: a function for that
// would take the same parameters in the same order.

#![tactic(auto)]

ghost use Rattle.std.specs.Prelude.{◌≡◌};

use sheet::NamedPiece;

pub mod answering;
pub mod grids;
pub mod listings;
pub mod loads;
pub mod playing;
pub mod sheets;
pub mod tetrahedra;
pub mod triplets;
pub mod version;

// Beside NamedPiece of the sheet, which has the same fields: this is the C interface's, which lays its fields out as C does.

// A piece as a caller names it: any numbers.
#[repr(C)]
#[derive(Clone, Copy)]
pub struct Piece {
    pub triplet: i64,
    pub b1: i64,
    pub b2: i64,
}

impl From<Piece> for NamedPiece {
    ghost from_gives = { λ piece named. (named.triplet ≡ piece.triplet) × ((named.b1 ≡ piece.b1) × (named.b2 ≡ piece.b2)) };

    fn from(piece: Piece) -> Self {
        NamedPiece {
            triplet: piece.triplet,
            b1: piece.b1,
            b2: piece.b2,
        }
    }
}

// Three whole numbers: a triplet, an address, a mesh or a vector.
#[repr(C)]
#[derive(Clone, Copy)]
pub struct Triple {
    pub numbers: [i64; 3],
}

// The kind and the mesh of a grid.
#[repr(C)]
#[derive(Clone, Copy)]
pub struct Grid {
    pub bz_grid_type: i64,
    pub d_diag: [i64; 3],
}
