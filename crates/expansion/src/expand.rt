// Internal to the workspace, not open to callers: the expansion with the limit on cells as a parameter. What moves bytes here knows of
// no refusal. Assumes nothing but what each `requires` says.
ghost use Rattle.std.specs.Prelude.{◌≡◌, ◌*◌, ◌^◌, ◌≤◌, ◌<◌, length};
ghost use Rattle.lists.specs.Lists.{store};
ghost use Rattle.words.specs.Words.{Bytes};
ghost use Rattle.call.specs.Inner.{call_of};
ghost use Rattle.call.specs.Ops.{op_record, OP_WIDTH};
ghost use Rattle.access.specs.Access.{ACCESS_WIDTH};
ghost use Rattle.window.specs.Inner.{SameSlices};
ghost use Rattle.expansion_rows.specs.Inner.{CallInside};
ghost use Rattle.expansion.specs.Tries.{setting, lent, try_of};
ghost use Rattle.expansion.specs.Refusals.{op_count, access_count, expansion_numbers};
ghost use Rattle.expansion.specs.Expansion.{empty_op, expanded, Done};

use crate::judge::expansion_answer;
use crate::{Expanded, ExpansionRefusal};
use call::{CopyCall, OP_WIDTH};
use expansion_rows::held::write_pass;
use expansion_rows::rows::op_record;
use expansion_rows::turns::read_pass;
use window::Window;

// The one operation record of an empty call.
fn write_empty(call: CopyCall, ops: &mut [u64])
    requires { (call.count ≡ 0) × (OP_WIDTH ≤ length ops.old) }
    ensures { ops.new ≡ store ops.old 0 (op_record (empty_op (call_of call))) }
{
    let numbers = op_record(call, 1, 1, [0; 8]);
    ops[0..OP_WIDTH].copy_from_slice(&numbers);
}

// A Copy of some bytes: all rows read, and then they write.
fn copy_call(
    call: CopyCall,
    rows: usize,
    window: &mut Window,
    ops: &mut [u64],
    accesses: &mut [u64],
)
    requires { (call.kind ≡ 0) × (0 < call.count) × CallInside (call_of call) (length window.old.bytes.now)
        × (rows ≡ op_count (call_of call)) × (OP_WIDTH * op_count (call_of call) ≤ length ops.old)
        × (ACCESS_WIDTH * access_count (call_of call) ≤ length accesses.old) × Bytes window.old.bytes.now }
    ensures after { lent window.new.bytes.now window.new.stamps.now ops.new accesses.new
        ≡ expanded (call_of call) (lent window.old.bytes.now window.old.stamps.now ops.old accesses.old) }
    ensures same { SameSlices window.old window.new }
{
    read_pass(call, window, ops, accesses);
    let later = call.timestamp + 1;
    write_pass(rows, rows, later, window, ops, accesses);
}

// A call that is accepted, of `rows` operation records.
fn move_call(
    call: CopyCall,
    rows: usize,
    window: &mut Window,
    ops: &mut [u64],
    accesses: &mut [u64],
)
    requires { (0 < call.count → CallInside (call_of call) (length window.old.bytes.now))
        × (rows ≡ op_count (call_of call)) × (OP_WIDTH * op_count (call_of call) ≤ length ops.old)
        × (ACCESS_WIDTH * access_count (call_of call) ≤ length accesses.old) × Bytes window.old.bytes.now }
    ensures after { lent window.new.bytes.now window.new.stamps.now ops.new accesses.new
        ≡ expanded (call_of call) (lent window.old.bytes.now window.old.stamps.now ops.old accesses.old) }
    ensures same { SameSlices window.old window.new }
{
    if call.count == 0 {
        write_empty(call, ops);
        return;
    }
    if call.kind == 0 {
        copy_call(call, rows, window, ops, accesses);
        return;
    }
    read_pass(call, window, ops, accesses);
}

// Expands a call over a window of at most `limit` cells, or refuses and writes nothing.
pub fn expand(
    limit: usize,
    gap: u64,
    call: CopyCall,
    bytes: &mut [u8],
    stamps: &mut [u64],
    ops: &mut [u64],
    accesses: &mut [u64],
) -> Result<Expanded, ExpansionRefusal>
    requires { limit ≤ 2 ^ 20 }
    ensures { Done (setting limit gap)
        (try_of (call_of call) (lent bytes.old stamps.old ops.old accesses.old))
        (expansion_numbers result) (lent bytes.new stamps.new ops.new accesses.new) }
{
    let answer = expansion_answer(
        limit,
        gap,
        call,
        bytes.len(),
        stamps.len(),
        ops.len(),
        accesses.len(),
    );
    if let Ok(expanded) = answer {
        let mut window = Window { bytes, stamps };
        move_call(call, expanded.ops, &mut window, ops, accesses);
    }
    answer
}
