// Calls that go to the expansion in turn over one window. Nothing here is open to callers. Assumes nothing.
#![tactic(auto)]

pub mod ahead;
pub mod turns;

// How many operation records the expansion writes, and how many calls it accepts.
#[derive(Clone, Copy)]
pub struct Counts {
    pub ops: usize,
    pub calls: usize,
}
