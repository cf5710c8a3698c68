// The expansion of one call over a window. Document 01: "Expansion (`collect_copy_ops`)". Every call has an answer, and a refusal writes
// nothing. Assumes nothing.
#![tactic(auto)]

ghost use Rattle.std.specs.Prelude.{◌≡◌};
ghost use Rattle.call.specs.Calls.{call_with};
ghost use Rattle.expansion.specs.Refusals.{expansion_refusal_numbers, expansion_numbers};
ghost use Rattle.expansion.specs.Tries.{under, lent, try_of};
ghost use Rattle.expansion.specs.Expansion.{Done};

use answer::{Answer, accept, refuse};
use call::{CopyCall, Functionality};
use records::LIMIT;

pub mod expand;
pub mod judge;

// Of a call that is accepted: how many operation and access records are written.
#[derive(Clone, Copy)]
pub struct Expanded {
    pub ops: usize,
    pub accesses: usize,
}

// What the expansion refuses.
#[derive(Clone, Copy)]
pub enum ExpansionRefusal {
    // 7: the gap is 2^32 or more
    GapTooLarge,
    // 8: the window's slices are unequal or above the limit
    BadWindow,
    // 1: the stamp is 2^64 - 1
    LastStamp,
    // 3: a Set whose dst is not src + gap
    NotGapApart,
    // 5: a Write past index 2^32 - 1
    PastIndex,
    // 2: cells outside the window
    OutsideWindow,
    // 9: a buffer shorter than the result
    BufferShort,
}

impl From<ExpansionRefusal> for Answer {
    ghost from_gives = { λ why answer. answer ≡ expansion_refusal_numbers why };

    fn from(why: ExpansionRefusal) -> Answer {
        match why {
            ExpansionRefusal::GapTooLarge => refuse(7, 0),
            ExpansionRefusal::BadWindow => refuse(8, 0),
            ExpansionRefusal::LastStamp => refuse(1, 0),
            ExpansionRefusal::NotGapApart => refuse(3, 0),
            ExpansionRefusal::PastIndex => refuse(5, 0),
            ExpansionRefusal::OutsideWindow => refuse(2, 0),
            ExpansionRefusal::BufferShort => refuse(9, 0),
        }
    }
}

// Document 01's number, place and value of an answer; the value is the number of operation records.
pub fn numbers(found: Result<Expanded, ExpansionRefusal>) -> Answer
    ensures { result ≡ (expansion_numbers found).answer }
{
    match found {
        Ok(expanded) => accept(expanded.ops as u64),
        Err(why) => Answer::from(why),
    }
}

// How many operation records an answer tells of; a refusal has none.
pub fn records_in(found: Result<Expanded, ExpansionRefusal>) -> usize
    ensures { result ≡ (expansion_numbers found).answer.value }
{
    match found {
        Ok(expanded) => expanded.ops,
        Err(_) => 0,
    }
}

// Expands a call over a window of at most 65,536 cells: its operation records go into `ops`, its access records into `accesses`, and the
// window is as the call leaves it. Refuses with 7, 8, 1, 3, 5, 2 and 9, in this order, and then writes nothing.
pub fn collect_copy_ops(
    kind: Functionality,
    timestamp: u64,
    src: u64,
    dst: u64,
    count: u64,
    gap: u64,
    bytes: &mut [u8],
    stamps: &mut [u64],
    ops: &mut [u64],
    accesses: &mut [u64],
) -> Result<Expanded, ExpansionRefusal>
    ensures { Done (under gap)
        (try_of (call_with kind timestamp src dst count) (lent bytes.old stamps.old ops.old accesses.old))
        (expansion_numbers result) (lent bytes.new stamps.new ops.new accesses.new) }
{
    let call = CopyCall {
        kind: u64::from(kind),
        timestamp,
        src,
        dst,
        count,
    };
    expand::expand(LIMIT, gap, call, bytes, stamps, ops, accesses)
}
