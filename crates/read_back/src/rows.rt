// Internal to the workspace, not open to callers: how many records and calls a row list has, and writing them. `calls` says which of the
// two is read. Assumes nothing but what each `requires` says.
ghost use Rattle.std.specs.Prelude.{◌≡◌, true, false, ◌+◌, ◌*◌, ◌≤◌, length};
ghost use Rattle.lists.specs.Lists.{store};
ghost use Rattle.lists.specs.Inner.{one_more, placed};
ghost use Rattle.call.specs.Ops.{op_record};
ghost use Rattle.call.specs.Flat.{call_numbers};
ghost use Rattle.copy_row.specs.Columns.{COLUMNS};
ghost use Rattle.copy_meaning.specs.ReadRow.{call_at, op_at};
ghost use Rattle.read_back.specs.Inner.{is_read, numbers_of, width_of, numbers_read, holds_read, RowsFit, CountsOf};

use crate::Counts;
use call::{CALL_WIDTH, OP_WIDTH};
use copy_row::cols;
use copy_row::cols::NUM_COLUMNS;
use lists::slices::{one_more, put_at};
use records::tables::record_at;
use row_test::row::{CappedRow, words_at};

// Whether lent buffers of so many numbers hold what is read of a list that passes the chain check. Where they would hold a record and a
// call for every row, nothing is counted.
#[tactic(auto, using(crate::proofs::Walk::rows_most, crate::proofs::Read::holds_all, crate::proofs::Read::holds_counted))]
pub fn holds(rows: &[u64], ops: usize, calls: usize) -> bool
    requires { RowsFit rows.now }
    ensures { result ≡ holds_read rows.now ops calls }
{
    let n = rows.len() / NUM_COLUMNS;
    if (OP_WIDTH * n <= ops) & (CALL_WIDTH * n <= calls) {
        return true;
    }
    let found = count(rows);
    (OP_WIDTH * found.ops <= ops) & (CALL_WIDTH * found.calls <= calls)
}

// One walk counts both.
#[tactic(auto, using(lists::proofs::Flat::counted_none, lists::proofs::Flat::counted_le, crate::proofs::Walk::row_counted, crate::proofs::Walk::all_counted, chain::proofs::Rows::row_length, crate::proofs::Walk::row_caps))]
fn count(rows: &[u64]) -> Counts
    requires { RowsFit rows.now }
    ensures { CountsOf rows.now result }
{
    let n = rows.len() / NUM_COLUMNS;
    let mut ops: usize = 0;
    let mut calls: usize = 0;
    for k in 0..n {
        let row = CappedRow {
            numbers: record_at(rows, NUM_COLUMNS, k),
        };
        ops = one_more(is_read(row, false), ops);
        calls = one_more(is_read(row, true), calls);
    }
    Counts { ops, calls }
}

// Every live row has a record, and every row that is a call's first a call.
fn is_read(row: CappedRow, calls: bool) -> bool
    ensures { result ≡ is_read calls row.entry.numbers.now }
{
    if calls {
        return (row.numbers[cols::MU] == 1) & (row.numbers[cols::FIRST] == 1);
    }
    row.numbers[cols::MU] == 1
}

// One walk writes both, the records into `ops` and the calls into `calls`, and says how many there are.
#[tactic(auto, using(chain::proofs::Rows::row_length, crate::proofs::Walk::row_caps, crate::proofs::Walk::all_counted, crate::proofs::Walk::all_written))]
pub fn write(rows: &[u64], ops: &mut [u64], calls: &mut [u64]) -> Counts
    requires rows_fit { RowsFit rows.now }
    requires calls_value { holds_read rows.now (length ops.old) (length calls.old) ≡ true }
    ensures counts { CountsOf rows.now result }
    ensures ops { ops.new ≡ store ops.old 0 (numbers_read false rows.now) }
    ensures calls { calls.new ≡ store calls.old 0 (numbers_read true rows.now) }
{
    let n = rows.len() / NUM_COLUMNS;
    let mut o: usize = 0;
    let mut c: usize = 0;
    for k in 0..n {
        let row = CappedRow {
            numbers: record_at(rows, NUM_COLUMNS, k),
        };
        o = put_row(row, false, o, ops);
        c = put_row(row, true, c, calls);
    }
    Counts { ops: o, calls: c }
}

// Writes the numbers of a row, if it is read, behind those of the j before it.
fn put_row(row: CappedRow, calls: bool, j: usize, out: &mut [u64]) -> usize
    requires { is_read calls row.numbers.now ≡ true → width_of calls * j + width_of calls ≤ length out.old }
    ensures count { result ≡ one_more (is_read calls row.entry.numbers.now) j }
    ensures out { out.new
        ≡ placed (is_read calls row.entry.numbers.now) (width_of calls) j (numbers_of calls row.entry.numbers.now) out.old }
{
    if !is_read(row, calls) {
        return j;
    }
    if calls {
        let record = call_record(row);
        put_at(out, CALL_WIDTH * j, &record);
        return j + 1;
    }
    let record = op_record(row);
    put_at(out, OP_WIDTH * j, &record);
    j + 1
}

// The operation record that a row shows.
#[tactic(auto, using(row_test::proofs::Columns::flag_bit))]
fn op_record(row: CappedRow) -> [u64; 16]
    ensures { result ≡ op_record (op_at row.entry.numbers.now) }
{
    let call = call_record(row);
    [
        call[1],
        call[2],
        call[3],
        call[4],
        8 - 7 * row.numbers[cols::SINGLE],
        row.numbers[cols::FIRST],
        row.numbers[cols::END],
        call[0],
        row.numbers[cols::VALUE_0],
        row.numbers[cols::VALUE_0 + 1],
        row.numbers[cols::VALUE_0 + 2],
        row.numbers[cols::VALUE_0 + 3],
        row.numbers[cols::VALUE_0 + 4],
        row.numbers[cols::VALUE_0 + 5],
        row.numbers[cols::VALUE_0 + 6],
        row.numbers[cols::VALUE_0 + 7],
    ]
}

// The call that a row shows: kind, timestamp, src, dst, count.
#[tactic(auto, using(row_test::proofs::Columns::flag_bit, row_test::proofs::Columns::stamp_capped, row_test::proofs::Columns::src_capped, row_test::proofs::Columns::dst_capped, row_test::proofs::Columns::count_capped))]
fn call_record(row: CappedRow) -> [u64; 5]
    ensures { result ≡ call_numbers (call_at row.entry.numbers.now) }
{
    [
        row.numbers[cols::IS_SET] + 2 * row.numbers[cols::IS_WRITE],
        words_at(row.numbers, cols::TIMESTAMP_0),
        words_at(row.numbers, cols::SRC_0),
        words_at(row.numbers, cols::DST_0),
        words_at(row.numbers, cols::COUNT_0),
    ]
}
