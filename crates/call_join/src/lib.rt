// Two lists of calls made into one. Document 02: "The joined list is in order, has each call of both once and no other, keeps each list's
// own order and puts the first list's call ahead at equal stamps." Every pair of lists has an answer. Assumes nothing.
#![tactic(auto)]

pub mod merge;

ghost use Rattle.std.specs.Prelude.{◌≡◌};
ghost use Rattle.records.specs.Records.{LIMIT};
ghost use Rattle.call_join.specs.Join.{join_numbers, JoinDone};

use answer::{Answer, accept, refuse};
use records::LIMIT;

// Why nothing is written: 8, 10 and 20, of either list; and 9 for the lent buffer.
#[derive(Clone, Copy)]
pub enum JoinRefusal {
    TooManyRecords,
    BadRecord { place: usize },
    OutOfOrder { place: usize },
    BufferShort,
}

// Joins two lists of calls, each at most 65,536 and in order of stamp, into `joined`, and says how many calls are written. Refuses with 8, 10
// and 20, each of the first list and then of the second, and with 9, and then writes nothing.
pub fn join_calls(first: &[u64], second: &[u64], joined: &mut [u64]) -> Result<usize, JoinRefusal>
    ensures { JoinDone LIMIT 8 first.now second.now joined.old (join_numbers 8 result) joined.new }
{
    merge::join(LIMIT, first, second, joined)
}

// The number, place and value of an answer; `over` is the number of the refusal of too many calls.
pub fn numbers(over: u64, found: Result<usize, JoinRefusal>) -> Answer
    ensures { result ≡ join_numbers over found }
{
    match found {
        Ok(calls) => accept(calls as u64),
        Err(JoinRefusal::TooManyRecords) => refuse(over, 0),
        Err(JoinRefusal::BadRecord { place }) => refuse(10, place as u64),
        Err(JoinRefusal::OutOfOrder { place }) => refuse(20, place as u64),
        Err(JoinRefusal::BufferShort) => refuse(9, 0),
    }
}
