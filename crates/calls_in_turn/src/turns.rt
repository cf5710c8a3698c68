// Internal to the workspace, not open to callers: calls expanded one by one, each over the window that the one before it left, and with
// its records behind those so far. Assumes nothing but what each `requires` says.
ghost use Rattle.std.specs.Prelude.{◌≡◌, ◌*◌, ◌≤◌, length};
ghost use Rattle.call.specs.Ops.{OP_WIDTH};
ghost use Rattle.expansion.specs.Tries.{under, lent};
ghost use Rattle.calls_in_turn.specs.InTurn.{calls_in, all_expanded};
ghost use Rattle.calls_in_turn.specs.Inner.{Turned};

use call::flat::call_from;
use call::{HANDED_WIDTH, OP_WIDTH, good_call};
use expansion::expand::expand;
use expansion::records_in;
use records::LIMIT;
use records::tables::{record_at, record_count};

// Expands a call behind `done` records, and answers how many it adds. A refused call is passed over, and so is a record that is no call.
fn expand_next(
    gap: u64,
    call: &[u64],
    done: usize,
    bytes: &mut [u8],
    stamps: &mut [u64],
    ops: &mut [u64],
    accesses: &mut [u64],
) -> usize
    requires { OP_WIDTH * done ≤ length ops.old }
    ensures { Turned (under gap) call.now done
        (lent bytes.old stamps.old ops.old accesses.old)
        (lent bytes.new stamps.new ops.new accesses.new) result }
{
    if !good_call(call) {
        return 0;
    }
    let start = OP_WIDTH * done;
    let answer = expand(
        LIMIT,
        gap,
        call_from(call),
        bytes,
        stamps,
        &mut ops[start..],
        accesses,
    );
    records_in(answer)
}

// Expands all calls of a flat list.
pub fn expand_all(
    gap: u64,
    calls: &[u64],
    bytes: &mut [u8],
    stamps: &mut [u64],
    ops: &mut [u64],
    accesses: &mut [u64],
)
    ensures { lent bytes.new stamps.new ops.new accesses.new
        ≡ all_expanded (under gap) (calls_in calls.now)
        (lent bytes.old stamps.old ops.old accesses.old) }
{
    let n = record_count(calls, HANDED_WIDTH);
    let mut done = 0;
    for k in 0..n {
        let call = record_at(calls, HANDED_WIDTH, k);
        done += expand_next(gap, call, done, bytes, stamps, ops, accesses);
    }
}
