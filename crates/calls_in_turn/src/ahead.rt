// Internal to the workspace, not open to callers: how many records and calls the expansion will accept, told before anything is written,
// so that a refusal of what comes after it can leave the window as it was. Assumes nothing but what each `requires` says.
ghost use Rattle.std.specs.Prelude.{◌≡◌, ◌*◌, ◌≤◌};
ghost use Rattle.records.specs.Records.{record_count};
ghost use Rattle.call.specs.Ops.{OP_WIDTH};
ghost use Rattle.call.specs.Flat.{HANDED_WIDTH};
ghost use Rattle.expansion.specs.Tries.{under, lengths_are};
ghost use Rattle.calls_in_turn.specs.InTurn.{calls_in};
ghost use Rattle.calls_in_turn.specs.Counts.{all_records, all_calls};
ghost use Rattle.calls_in_turn.specs.Inner.{added_by};

use crate::Counts;
use call::flat::call_from;
use call::{HANDED_WIDTH, OP_WIDTH, good_call};
use expansion::judge::expansion_answer;
use expansion::records_in;
use records::LIMIT;
use records::tables::{record_at, record_count};

// How many records a call adds, with slices of these lengths. A refused call adds none, and so does a record that is no call.
fn records_of(
    gap: u64,
    call: &[u64],
    cells: usize,
    stamped: usize,
    room: usize,
    space: usize,
) -> usize
    ensures value { result ≡ added_by (under gap) call.now (lengths_are cells stamped room space) }
    ensures result_bound { OP_WIDTH * result ≤ room }
{
    if !good_call(call) {
        return 0;
    }
    records_in(expansion_answer(LIMIT, gap, call_from(call), cells, stamped, room, space))
}

// How many records and calls are accepted of all, one after the other; each finds the room that those before it left.
pub fn count(
    gap: u64,
    calls: &[u64],
    cells: usize,
    stamped: usize,
    room: usize,
    space: usize,
) -> Counts
    ensures ops { result.ops ≡ all_records (under gap) (calls_in calls.now) (lengths_are cells stamped room space) }
    ensures calls { result.calls ≡ all_calls (under gap) (calls_in calls.now) (lengths_are cells stamped room space) }
    ensures few { result.calls ≤ record_count HANDED_WIDTH calls.now }
{
    let n = record_count(calls, HANDED_WIDTH);
    let mut ops = 0;
    let mut accepted = 0;
    for k in 0..n {
        let call = record_at(calls, HANDED_WIDTH, k);
        let added = records_of(gap, call, cells, stamped, room - OP_WIDTH * ops, space);
        accepted += usize::from(0 < added);
        ops += added;
    }
    Counts {
        ops,
        calls: accepted,
    }
}
