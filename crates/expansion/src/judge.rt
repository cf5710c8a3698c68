// Internal to the workspace, not open to callers: the answer for a call, which writes nothing. The limit on cells is a parameter. Assumes
// nothing but what each `requires` says.
ghost use Rattle.std.specs.Prelude.{◌≡◌, ◌+◌, ◌-◌, ◌*◌, ◌^◌, ◌≤◌, ◌<◌, length};
ghost use Rattle.call.specs.Inner.{call_of};
ghost use Rattle.expansion_rows.specs.Rows.{widths_of};
ghost use Rattle.expansion.specs.Tries.{setting, lengths_are};
ghost use Rattle.expansion.specs.Refusals.{op_count, access_count, not_gap_apart, past_index, outside_window, answer_by, with_accesses, expansion_numbers};

use crate::{Expanded, ExpansionRefusal};
use access::ACCESS_WIDTH;
use call::{CopyCall, OP_WIDTH};
use expansion_rows::rows::row_count;
use words::past;

// 3: a Set whose dst is not src + gap.
fn not_gap_apart(call: CopyCall, gap: u64) -> bool
    ensures { result ≡ not_gap_apart gap (call_of call) }
{
    if call.kind != 1 {
        return false;
    }
    if call.dst < gap {
        return true;
    }
    call.dst - gap != call.src
}

// 5: a Write past index 2^32 - 1.
fn past_index(call: CopyCall) -> bool
    ensures { result ≡ past_index (call_of call) }
{
    if call.kind != 2 {
        return false;
    }
    past(0xffff_ffff, call.dst, call.count)
}

// 2: cells outside a window of `cells` cells; a Write's destination is no cell.
fn outside(call: CopyCall, cells: u64) -> bool
    ensures { result ≡ outside_window (call_of call) cells }
{
    if call.count == 0 {
        return false;
    }
    if past(cells, call.src, call.count) {
        return true;
    }
    if call.kind == 2 {
        return false;
    }
    past(cells, call.dst, call.count)
}

// How many operation records a call of `rows` rows has, and how many accesses.
fn op_count(call: CopyCall, rows: usize) -> usize
    requires { rows ≡ length (widths_of (call_of call)) }
    ensures value { result ≡ op_count (call_of call) }
    ensures upper_bound { result ≤ rows + 1 }
{
    if call.count == 0 { 1 } else { rows }
}

fn access_count(call: CopyCall, rows: usize) -> usize
    requires { (rows ≡ length (widths_of (call_of call))) × (rows < 2 ^ 32) }
    ensures value { result ≡ access_count (call_of call) }
    ensures upper_bound { result ≤ 2 * rows }
{
    if call.kind == 2 { rows } else { 2 * rows }
}

// The answer for a call over a window of `cells` bytes and `stamped` stamps, with room for so many numbers in the two buffers.
pub fn expansion_answer(
    limit: usize,
    gap: u64,
    call: CopyCall,
    cells: usize,
    stamped: usize,
    ops_room: usize,
    accesses_room: usize,
) -> Result<Expanded, ExpansionRefusal>
    requires { limit ≤ 2 ^ 20 }
    ensures { expansion_numbers result
        ≡ with_accesses (call_of call) (answer_by (setting limit gap) (call_of call) (lengths_are cells stamped ops_room accesses_room)) }
{
    if 0x1_0000_0000 <= gap {
        return Err(ExpansionRefusal::GapTooLarge);
    }
    if (cells != stamped) | (limit < cells) {
        return Err(ExpansionRefusal::BadWindow);
    }
    if call.timestamp == 0xffff_ffff_ffff_ffff {
        return Err(ExpansionRefusal::LastStamp);
    }
    if not_gap_apart(call, gap) {
        return Err(ExpansionRefusal::NotGapApart);
    }
    if past_index(call) {
        return Err(ExpansionRefusal::PastIndex);
    }
    if outside(call, cells as u64) {
        return Err(ExpansionRefusal::OutsideWindow);
    }
    let rows = row_count(call);
    let ops = op_count(call, rows);
    let accesses = access_count(call, rows);
    if (ops_room < OP_WIDTH * ops) | (accesses_room < ACCESS_WIDTH * accesses) {
        return Err(ExpansionRefusal::BufferShort);
    }
    Ok(Expanded { ops, accesses })
}
