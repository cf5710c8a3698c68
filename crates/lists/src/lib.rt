// Lists that loops fill and search: the words and laws that all crates share. Assumes nothing.
#![tactic(auto)]

pub mod slices;
