// Internal to the workspace, not open to callers: the copy row of one operation record. Assumes nothing but what each `requires` says.
ghost use Rattle.std.specs.Prelude.{◌≡◌, cond, length};
ghost use Rattle.words.specs.Words.{bit};
ghost use Rattle.call.specs.Ops.{op_of, OP_WIDTH};
ghost use Rattle.copy_row.specs.Columns.{COLUMNS};
ghost use Rattle.copy_row.specs.Rows.{dst_res, table_row, padding_row};
ghost use Rattle.copy_row.specs.Inner.{copy_operation};
ghost use Rattle.copy_row.specs.Trace.{copy_row};

use crate::{CopyOperation, cols};
use lists::slices::put;
use words::{bit, halves, words, wrapping_add, wrapping_sub};

// The operation of a record of 16 numbers.
pub fn operation(op: &[u64]) -> CopyOperation
    requires { length op.now ≡ OP_WIDTH }
    ensures { copy_operation result ≡ op_of op.now }
{
    CopyOperation {
        timestamp: op[0],
        src: op[1],
        dst: op[2],
        count: op[3],
        width: op[4],
        first: op[5],
        end: op[6],
        kind: op[7],
        value: [op[8], op[9], op[10], op[11], op[12], op[13], op[14], op[15]],
    }
}

// x where b holds, else 0.
fn when(b: bool, x: u64) -> u64
    ensures { result ≡ cond b x 0 }
{
    if b { x } else { 0 }
}

// The value written back to the register of dst: dst + count for a Write, else dst.
fn dst_res(op: CopyOperation) -> u64
    ensures { result ≡ dst_res (copy_operation op).call }
{
    if op.kind == 2 {
        wrapping_add(op.dst, op.count)
    } else {
        op.dst
    }
}

// The 41 columns of an operation's row. INCR, DECR and RES are "sums taken modulo 2^64, as the Rust's wrapping calls".
fn cells(op: CopyOperation) -> [u64; 41]
    ensures { result ≡ table_row (copy_operation op) }
{
    let timestamp = words(op.timestamp);
    let value = op.value;
    let src = words(op.src);
    let src_incr = halves(wrapping_add(op.src, op.width));
    let dst = words(op.dst);
    let dst_incr = halves(wrapping_add(op.dst, op.width));
    let count = words(op.count);
    let count_decr = halves(wrapping_sub(op.count, op.width));
    let dst_res = halves(dst_res(op));
    let commits = (op.kind == 2) & (op.count != 0);
    [
        timestamp[0],
        timestamp[1],
        value[0],
        value[1],
        value[2],
        value[3],
        value[4],
        value[5],
        value[6],
        value[7],
        src[0],
        src[1],
        src_incr[0],
        src_incr[1],
        src_incr[2],
        src_incr[3],
        dst[0],
        dst[1],
        dst_incr[0],
        dst_incr[1],
        dst_incr[2],
        dst_incr[3],
        count[0],
        count[1],
        count_decr[0],
        count_decr[1],
        count_decr[2],
        count_decr[3],
        dst_res[0],
        dst_res[1],
        dst_res[2],
        dst_res[3],
        op.first,
        op.end,
        bit(op.width == 1),
        bit(op.kind == 1),
        bit(op.kind == 2),
        when(op.kind == 2, op.first),
        1,
        bit(commits),
        bit(commits & (op.width == 8)),
    ]
}

// Writes the row of a record of 16 numbers.
pub fn write_row(row: &mut [u64], op: &[u64])
    requires { (length row.old ≡ COLUMNS) × (length op.now ≡ OP_WIDTH) }
    ensures { row.new ≡ copy_row op.now }
{
    let row_cells = cells(operation(op));
    put(row, &row_cells);
}

// Writes a padding row: "8 in COUNT_0, SRC_INCR_0, DST_INCR_0, else 0".
pub fn write_padding(row: &mut [u64])
    requires { length row.old ≡ COLUMNS }
    ensures { row.new ≡ padding_row }
{
    let mut padding = [0; cols::NUM_COLUMNS];
    padding[cols::COUNT_0] = 8;
    padding[cols::SRC_INCR_0] = 8;
    padding[cols::DST_INCR_0] = 8;
    put(row, &padding);
}
