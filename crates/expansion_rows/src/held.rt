// Internal to the workspace, not open to callers: a Copy's writes, after all its reads. Assumes nothing but what each `requires` says.
ghost use Rattle.std.specs.Prelude.{◌≡◌, ℕ, ◌+◌, ◌*◌, ◌≤◌, ◌<◌, length};
ghost use mathlib.Core.List.{flat_map};
ghost use Rattle.lists.specs.Lists.{store, eight_at};
ghost use Rattle.words.specs.Words.{Bytes};
ghost use Rattle.records.specs.Records.{record_at};
ghost use Rattle.call.specs.Ops.{op_of, OP_WIDTH};
ghost use Rattle.access.specs.Access.{ACCESS_WIDTH, access_record};
ghost use Rattle.window.specs.Inner.{cells_of, SameSlices};
ghost use Rattle.expansion_rows.specs.Held.{held_bytes, held_stamps, held_access, held_all_bytes, held_all_stamps, held_accesses};
ghost use Rattle.expansion_rows.specs.Inner.{ops_in};
ghost use Rattle.expansion_rows.specs.Inner.{HeldInside};

use access::ACCESS_WIDTH;
use call::OP_WIDTH;
use window::Window;

// The value bytes of an operation record.
fn value_bytes(op: &[u64]) -> [u8; 8]
    requires { (length op.now ≡ OP_WIDTH) × Bytes (eight_at op.now 8) }
    ensures { result ≡ eight_at op.now 8 }
{
    let mut out = [0; 8];
    for i in 0..8 {
        out[i] = op[8 + i] as u8;
    }
    out
}

// The write of an operation record.
fn write_held(op: &[u64], stamp: u64, window: &mut Window, access: &mut [u64])
    requires held_inside { HeldInside stamp (length window.old.bytes.now) (op_of op.now) }
    requires op_len { (length op.now ≡ OP_WIDTH) × (length access.old ≡ ACCESS_WIDTH) }
    ensures bytes_after { window.new.bytes.now ≡ held_bytes (op_of op.now) window.old.bytes.now }
    ensures stamps_after { window.new.stamps.now ≡ held_stamps (op_of op.now) window.old.stamps.now }
    ensures access_after { access.new ≡ access_record (held_access (op_of op.now) (cells_of window.old)) }
    ensures same { SameSlices window.old window.new }
{
    let value = value_bytes(op);
    let dst = op[2];
    let width = op[4];
    window.write_cells(dst, width, value, stamp, access);
}

// The writes of the first `n` operation records, in order; their access records go behind the first `j`.
pub fn write_pass(
    n: usize,
    j: usize,
    stamp: u64,
    window: &mut Window,
    ops: &[u64],
    accesses: &mut [u64],
)
    requires { ((k : ℕ) → k < n → HeldInside stamp (length window.old.bytes.now) (op_of (record_at OP_WIDTH ops.now k)))
        × (OP_WIDTH * n ≤ length ops.now) × (ACCESS_WIDTH * (j + n) ≤ length accesses.old) }
    ensures bytes_after { window.new.bytes.now ≡ held_all_bytes (ops_in ops.now n) window.old.bytes.now }
    ensures stamps_after { window.new.stamps.now ≡ held_all_stamps (ops_in ops.now n) window.old.stamps.now }
    ensures accesses_after { accesses.new ≡ store accesses.old (ACCESS_WIDTH * j)
        (flat_map access_record (held_accesses (ops_in ops.now n) (cells_of window.old))) }
    ensures same { SameSlices window.old window.new }
{
    for k in 0..n {
        write_held(
            &ops[OP_WIDTH * k..OP_WIDTH * k + OP_WIDTH],
            stamp,
            window,
            &mut accesses[ACCESS_WIDTH * (j + k)..ACCESS_WIDTH * (j + k) + ACCESS_WIDTH],
        );
    }
}
