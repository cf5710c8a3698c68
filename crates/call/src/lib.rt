// A call, its kinds and its record, and the record of a right. Assumes nothing.
#![tactic(auto)]

pub mod flat;

ghost use Rattle.std.specs.Prelude.{◌≡◌};
ghost use Rattle.call.specs.Calls.{kind_number, no_kind, kind_of};
ghost use Rattle.call.specs.Ops.{good_op};
ghost use Rattle.call.specs.Flat.{good_call};
ghost use Rattle.call.specs.Entries.{good_entry};

use records::tables::within_limits;

// Which functionality a row is running: document 01's kind.
#[derive(Clone, Copy)]
pub enum Functionality {
    // memcpy and memmove: all reads, then the writes.
    Copy,
    // memset: row by row, so the fill propagates.
    Set,
    // write: reads only, into the commit domain.
    Write,
}

// A call, or what remains of one from some row on. The kind is its number.
#[derive(Clone, Copy)]
pub struct CopyCall {
    pub kind: u64,
    pub timestamp: u64,
    pub src: u64,
    pub dst: u64,
    pub count: u64,
}

// The number of a kind.
impl From<Functionality> for u64 {
    ghost from_gives = { λ kind number. number ≡ kind_number kind };

    fn from(kind: Functionality) -> u64 {
        match kind {
            Functionality::Copy => 0,
            Functionality::Set => 1,
            Functionality::Write => 2,
        }
    }
}

// No kind has this number.
pub fn no_kind(kind: u64) -> bool
    ensures { result ≡ no_kind kind }
{
    2 < kind
}

// The kind of a number; of one above 2, Write.
pub fn kind_of(kind: u64) -> Functionality
    ensures { result ≡ kind_of kind }
{
    match kind {
        0 => Functionality::Copy,
        1 => Functionality::Set,
        _ => Functionality::Write,
    }
}

// Numbers in an operation record.
pub const OP_WIDTH: usize = 16;

// The largest value of each number of an operation record.
const OP_LIMITS: [u64; 16] = [
    u64::MAX,
    u64::MAX,
    u64::MAX,
    u64::MAX,
    255,
    1,
    1,
    2,
    255,
    255,
    255,
    255,
    255,
    255,
    255,
    255,
];

// Whether an operation record is whole and each field is among its values.
#[tactic(auto, unfolding(crate::specs::Ops::op_limits))]
pub fn good_op(op: &[u64]) -> bool
    ensures { result ≡ good_op op.now }
{
    within_limits(op, &OP_LIMITS)
}

// Numbers in a call as read-back writes it, and as it is handed in.
pub const CALL_WIDTH: usize = 5;

pub const HANDED_WIDTH: usize = 5;

// Parties are 0 to 15.
pub const LAST_PARTY: u64 = 15;

// The largest value of each number of a call that is handed in.
const CALL_LIMITS: [u64; 5] = [2, u64::MAX, u64::MAX, u64::MAX, u64::MAX];

// Whether a record is a whole call and each field is among its values.
#[tactic(auto, unfolding(crate::specs::Flat::call_limits))]
pub fn good_call(call: &[u64]) -> bool
    ensures { result ≡ good_call call.now }
{
    within_limits(call, &CALL_LIMITS)
}

// Numbers in an entry, which says what a party may do with some bytes: party, start, length, may read, may write.
pub const ENTRY_WIDTH: usize = 5;

// The largest value of each of them.
const ENTRY_LIMITS: [u64; 5] = [15, u64::MAX, u64::MAX, 1, 1];

// Whether a record is a whole entry and each field is among its values.
#[tactic(auto, unfolding(crate::specs::Entries::entry_limits))]
pub fn good_entry(entry: &[u64]) -> bool
    ensures { result ≡ good_entry entry.now }
{
    within_limits(entry, &ENTRY_LIMITS)
}
