// One call of a list: six numbers decoded, and the call made once 3 to 13 said yes.

#![tactic(auto)]

use sheet_step::NamedPiece;

pub mod kernel;
mod parts;

// The calls of a list as numbers, six a call: its kind and five arguments. The id lists of the averagings are parts of `ids`.
#[derive(Clone, Copy)]
pub struct Calls<'a> {
    pub list: &'a [i64],
    pub ids: &'a [i64],
}

// A call with what it names: a run its worker and its piece, a carry-on its worker, an averaging its triplet and two id lists.
#[derive(Clone, Copy)]
pub enum Call<'a> {
    Run {
        worker: i64,
        piece: NamedPiece,
    },
    CarryOn {
        worker: i64,
    },
    Average {
        triplet: i64,
        ids1: &'a [i64],
        ids2: &'a [i64],
    },
}
