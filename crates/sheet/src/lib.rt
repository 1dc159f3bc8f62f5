// The run sheet: run a named piece, carry on, average a triplet, the tally, the open count. Weights lie by channel, triplet, point, b1, b2;
// flags without the channel; marks by triplet, b1, b2.

#![tactic(auto)]

pub use ask::Refusal;
pub use open_count::open_count;
pub use sheet_averaging::average_triplet;
pub use sheet_carry::carry_on;
pub use sheet_counts::Counts;
pub use sheet_run::{NamedPiece, SheetMut, run_piece};
pub use sheet_tally::Tally;
pub use triplet_study::{Shape, Study};
