// Internal to the workspace, not open to callers: the copy table's maker, with the limit on the records as a parameter. Assumes nothing
// but what each `requires` says.
ghost use Rattle.std.specs.Prelude.{◌≡◌, ◌*◌, ◌^◌, ◌≤◌, length, Ok};
ghost use Rattle.records.specs.Records.{record_count};
ghost use Rattle.call.specs.Ops.{OP_WIDTH};
ghost use Rattle.copy_row.specs.Columns.{COLUMNS};
ghost use Rattle.copy_row.specs.Trace.{copy_answer, copy_after};

use crate::cols::NUM_COLUMNS;
use crate::row::{write_padding, write_row};
use call::OP_WIDTH;
use kinds::RecordKind;
use kinds::judge::kind_answer;
use records::TableRefusal;
use records::tables::{record_at, record_count};

// The answer for the records `ops`, at most `limit` of them, and a lent table of `room` numbers.
pub fn copy_answer(limit: usize, ops: &[u64], room: usize) -> Result<usize, TableRefusal>
    requires { limit ≤ 2 ^ 20 }
    ensures { result ≡ copy_answer limit ops.now room }
{
    kind_answer(RecordKind::Operation, limit, NUM_COLUMNS, ops, room)
}

// Writes the rows of whole records, then padding. Row k is "written into numbers 41 × k to 41 × k + 40".
fn write_rows(ops: &[u64], table: &mut [u64], rows: usize)
    requires { (OP_WIDTH * record_count OP_WIDTH ops.now ≤ length ops.now) × (COLUMNS * rows ≤ length table.old) }
    ensures { table.new ≡ copy_after ops.now (Ok rows) table.old }
{
    let n = record_count(ops, OP_WIDTH);
    for k in 0..rows {
        if k < n {
            write_row(&mut table[41 * k..41 * k + 41], record_at(ops, OP_WIDTH, k));
        } else {
            write_padding(&mut table[41 * k..41 * k + 41]);
        }
    }
}

// Makes the table, or refuses and writes nothing.
pub fn make(limit: usize, ops: &[u64], table: &mut [u64]) -> Result<usize, TableRefusal>
    requires { limit ≤ 2 ^ 20 }
    ensures answer { result ≡ copy_answer limit ops.now (length table.old) }
    ensures table { table.new
        ≡ copy_after ops.now (copy_answer limit ops.now (length table.old)) table.old }
{
    let rows = copy_answer(limit, ops, table.len())?;
    write_rows(ops, table, rows);
    Ok(rows)
}
