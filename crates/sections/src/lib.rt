// Lines and sections of a text: a tag and values parted by tabs, and the lines one after another that bear a tag.

#![tactic(auto)]

pub mod kernel;
