// Internal to the workspace, not open to callers: the turns of a call's rows, one after the other. Assumes nothing but what each
// `requires` says.
ghost use Rattle.std.specs.Prelude.{◌≡◌, ◌+◌, ◌*◌, ◌^◌, ◌≤◌, ◌<◌, eqb, length};
ghost use mathlib.Core.List.{flat_map};
ghost use Rattle.lists.specs.Lists.{store};
ghost use Rattle.words.specs.Words.{bit};
ghost use Rattle.call.specs.Inner.{call_of};
ghost use Rattle.call.specs.Ops.{op_record, OP_WIDTH};
ghost use Rattle.access.specs.Access.{ACCESS_WIDTH, access_record};
ghost use Rattle.window.specs.Inner.{cells_of, SameSlices};
ghost use Rattle.expansion_rows.specs.Rows.{row_with};
ghost use Rattle.expansion_rows.specs.Inner.{rows_of};
ghost use Rattle.expansion_rows.specs.Turns.{inverted, value_at, turn_bytes, turn_stamps, turn_accesses, row_op, row_ops, pass_bytes, pass_stamps, pass_accesses};
ghost use Rattle.expansion_rows.specs.Inner.{PassInside};

use crate::rows::{copy_row_width, op_record, rest};
use access::ACCESS_WIDTH;
use call::{CopyCall, OP_WIDTH};
use window::Window;

// A Set's row: the write at T, then the read at T + 1, of the bytes that stood there before both.
fn set_turn(call: CopyCall, width: u64, window: &mut Window, accesses: &mut [u64]) -> [u8; 8]
    requires { (call.kind ≡ 1) × (width ≤ 8) × (call.src + width ≤ length window.old.bytes.now) × (call.dst + width ≤ length window.old.bytes.now)
        × (length accesses.old ≡ 2 * ACCESS_WIDTH) × (call.timestamp + 1 < 2 ^ 64) }
    ensures value { result ≡ value_at (call_of call) width window.old.bytes.now }
    ensures bytes_after { window.new.bytes.now ≡ turn_bytes (call_of call) width window.old.bytes.now }
    ensures stamps_after { window.new.stamps.now ≡ turn_stamps (call_of call) width window.old.stamps.now }
    ensures accesses_after { accesses.new ≡ flat_map access_record (turn_accesses (call_of call) width (cells_of window.old)) }
    ensures same { SameSlices window.old window.new }
{
    let value = window.bytes_at(call.src, width);
    let old_stamps = window.stamps_at(call.src, width);
    window.write_cells(
        call.dst,
        width,
        value,
        call.timestamp,
        &mut accesses[0..ACCESS_WIDTH],
    );
    let later = call.timestamp + 1;
    window.write_back(
        call.src,
        width,
        value,
        old_stamps,
        later,
        &mut accesses[ACCESS_WIDTH..2 * ACCESS_WIDTH],
    );
    value
}

// A row's turn, by kind.
fn turn(call: CopyCall, width: u64, window: &mut Window, accesses: &mut [u64]) -> [u8; 8]
    requires { (width ≤ 8) × (call.src + width ≤ length window.old.bytes.now) × (call.kind ≡ 1 → call.dst + width ≤ length window.old.bytes.now)
        × (length accesses.old ≡ ACCESS_WIDTH * (1 + bit (inverted (call_of call)))) × (call.timestamp + 1 < 2 ^ 64) }
    ensures value { result ≡ value_at (call_of call) width window.old.bytes.now }
    ensures bytes_after { window.new.bytes.now ≡ turn_bytes (call_of call) width window.old.bytes.now }
    ensures stamps_after { window.new.stamps.now ≡ turn_stamps (call_of call) width window.old.stamps.now }
    ensures accesses_after { accesses.new ≡ flat_map access_record (turn_accesses (call_of call) width (cells_of window.old)) }
    ensures same { SameSlices window.old window.new }
{
    if call.kind == 1 {
        return set_turn(call, width, window, accesses);
    }
    window.read_cells(call.src, width, call.timestamp, accesses)
}

// A row's turn, and its operation record.
fn row_turn(
    call: CopyCall,
    width: u64,
    first: u64,
    window: &mut Window,
    op: &mut [u64],
    accesses: &mut [u64],
)
    requires { (width ≤ 8) × (call.src + width ≤ length window.old.bytes.now) × (call.kind ≡ 1 → call.dst + width ≤ length window.old.bytes.now)
        × (length op.old ≡ OP_WIDTH)
        × (length accesses.old ≡ ACCESS_WIDTH * (1 + bit (inverted (call_of call)))) × (call.timestamp + 1 < 2 ^ 64) }
    ensures bytes_after { window.new.bytes.now ≡ turn_bytes (call_of call) width window.old.bytes.now }
    ensures stamps_after { window.new.stamps.now ≡ turn_stamps (call_of call) width window.old.stamps.now }
    ensures op_after { op.new ≡ op_record (row_op (row_with (call_of call) width first) window.old.bytes.now) }
    ensures accesses_after { accesses.new ≡ flat_map access_record (turn_accesses (call_of call) width (cells_of window.old)) }
    ensures same { SameSlices window.old window.new }
{
    let value = turn(call, width, window, accesses);
    let numbers = op_record(call, width, first, value);
    op.copy_from_slice(&numbers);
}

// The turns of a call's rows.
pub fn read_pass(call: CopyCall, window: &mut Window, ops: &mut [u64], accesses: &mut [u64])
    requires { PassInside (call_of call) window.old.bytes.now window.old.stamps.now ops.old accesses.old }
    ensures bytes_after { window.new.bytes.now ≡ pass_bytes (rows_of (call_of call)) window.old.bytes.now }
    ensures stamps_after { window.new.stamps.now ≡ pass_stamps (rows_of (call_of call)) window.old.stamps.now }
    ensures ops_after { ops.new ≡ store ops.old 0 (flat_map op_record (row_ops (rows_of (call_of call)) window.old.bytes.now)) }
    ensures accesses_after { accesses.new ≡ store accesses.old 0
        (flat_map access_record (pass_accesses (rows_of (call_of call)) (cells_of window.old))) }
    ensures same { SameSlices window.old window.new }
{
    // the accesses of a turn
    let per = 1 + usize::from(call.kind == 1);
    let mut left = call;
    let mut first = 1;
    let mut k = 0;
    let mut j = 0;
    while 0 < left.count {
        let width = copy_row_width(left);
        row_turn(
            left,
            width,
            first,
            window,
            &mut ops[OP_WIDTH * k..OP_WIDTH * k + OP_WIDTH],
            &mut accesses[ACCESS_WIDTH * j..ACCESS_WIDTH * (j + per)],
        );
        left = rest(left, width);
        first = 0;
        k += 1;
        j += per;
    }
}
