// The window: memory as two lent slices, cell a being byte a and stamp a. Document 01: "Expansion (`collect_copy_ops`)". Nothing here
// is open to callers. Assumes nothing.
#![tactic(auto)]

pub mod accesses;
pub mod cells;

ghost use Rattle.std.specs.Prelude.{◌≡◌, length};

// The two slices, as long as one another.
#[derive(Drop)]
pub struct Window<'a> {
    pub bytes: &'a mut [u8],
    pub stamps: &'a mut [u64],
    ghost same: { length stamps.now ≡ length bytes.now },
}
