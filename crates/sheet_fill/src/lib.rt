// What the accepted runs on a sheet write: one piece, or all open pieces.

#![tactic(auto)]

mod areas;
pub mod kernel;
mod prepared;

pub use areas::Work;
pub use prepared::PreparedStudy;
