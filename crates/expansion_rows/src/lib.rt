// The rows of a call over a window. Document 01: "Expansion (`collect_copy_ops`)". Nothing here is open to callers. Assumes nothing.
#![tactic(auto)]

pub mod held;
pub mod rows;
pub mod turns;
