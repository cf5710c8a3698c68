// Internal to the workspace, not open to callers: the maker of the three access tables, with the limit on the records as a parameter.
// Assumes nothing but what each `requires` says.
ghost use Rattle.std.specs.Prelude.{◌≡◌, ◌*◌, ◌^◌, ◌≤◌, length, Ok};
ghost use Rattle.records.specs.Records.{record_count};
ghost use Rattle.access.specs.Tables.{record_width};
ghost use Rattle.memw.specs.Tables.{row_width, memw_answer, memw_after};
ghost use Rattle.memw.specs.Inner.{memw_row_at};

use crate::tables::{record_kind, row_width, write_row};
use access::{AccessTable, record_width};
use kinds::judge::kind_answer;
use lists::slices::clear;
use records::TableRefusal;
use records::tables::{record_at, record_count};

// The answer for the records, at most `limit` of them, and a lent table of `room` numbers.
pub fn memw_answer(
    t: AccessTable,
    limit: usize,
    records: &[u64],
    room: usize,
) -> Result<usize, TableRefusal>
    requires { limit ≤ 2 ^ 20 }
    ensures { result ≡ memw_answer t limit records.now room }
{
    kind_answer(record_kind(t), limit, row_width(t), records, room)
}

// Writes row k of whole records, n of them, of w numbers each: that of record k, or padding past the last record.
fn write_row_at(t: AccessTable, records: &[u64], w: usize, n: usize, k: usize, row: &mut [u64])
    requires { (w ≡ record_width t) × (n ≡ record_count (record_width t) records.now)
        × (record_width t * n ≤ length records.now) × (length row.old ≡ row_width t) }
    ensures { row.new ≡ memw_row_at t records.now k }
{
    if k < n {
        write_row(t, row, record_at(records, w, k));
    } else {
        clear(row);
    }
}

// Writes the rows of whole records, then padding: row k into numbers v × k to v × k + v − 1, v the table's columns.
fn write_rows(t: AccessTable, records: &[u64], table: &mut [u64], rows: usize)
    requires { (record_width t * record_count (record_width t) records.now ≤ length records.now) × (row_width t * rows ≤ length table.old) }
    ensures { table.new ≡ memw_after t records.now (Ok rows) table.old }
{
    let w = record_width(t);
    let v = row_width(t);
    let n = record_count(records, w);
    for k in 0..rows {
        write_row_at(t, records, w, n, k, &mut table[v * k..v * k + v]);
    }
}

// Makes the table, or refuses and writes nothing.
pub fn make(
    t: AccessTable,
    limit: usize,
    records: &[u64],
    table: &mut [u64],
) -> Result<usize, TableRefusal>
    requires { limit ≤ 2 ^ 20 }
    ensures answer { result ≡ memw_answer t limit records.now (length table.old) }
    ensures table { table.new ≡ memw_after t records.now (memw_answer t limit records.now (length table.old))
        table.old }
{
    let rows = memw_answer(t, limit, records, table.len())?;
    write_rows(t, records, table, rows);
    Ok(rows)
}
