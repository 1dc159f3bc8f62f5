// The sets of an id list.
pub mod sets;
