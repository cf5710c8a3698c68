// A copy row judged on plain numbers: where nothing is wrong with a row, no residue of it has to be worked out. Assumes nothing.
#![tactic(auto)]

pub mod row;
pub mod tests;
