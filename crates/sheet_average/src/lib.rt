// What an accepted averaging writes: the averages of a triplet, its weights channel by channel and its flags.

#![tactic(auto)]

pub mod kernel;
mod triplet;

pub use triplet::TripletAverage;
