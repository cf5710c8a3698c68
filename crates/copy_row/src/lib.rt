// The copy table: operation records in a lent list become rows in a lent table. Document 01: "Copy row (`generate_copy_trace`)".
// Assumes nothing.
#![tactic(auto)]

pub mod cols;
pub mod row;
pub mod trace;

ghost use Rattle.records.specs.Records.{LIMIT};
ghost use Rattle.records.specs.Table.{table_numbers};
ghost use Rattle.copy_row.specs.Trace.{CopyDone};

use records::{LIMIT, TableRefusal};

// An operation record: one row's piece of a call, with the call as it remains at this row. The kind is its number.
#[derive(Clone, Copy)]
pub struct CopyOperation {
    pub timestamp: u64,
    pub src: u64,
    // For a Write, the index in the commit domain.
    pub dst: u64,
    // What is left, this row's bytes among it.
    pub count: u64,
    pub width: u64,
    pub first: u64,
    pub end: u64,
    pub kind: u64,
    pub value: [u64; 8],
}

// Makes the copy table of at most 65,536 operation records in `table`, 41 numbers to a row: the rows of the records in their order, then
// padding. Refuses with 8, 10 and 9, in this order, and then writes nothing.
pub fn generate_copy_trace(ops: &[u64], table: &mut [u64]) -> Result<usize, TableRefusal>
    ensures { CopyDone LIMIT 8 ops.now table.old (table_numbers 8 result) table.new }
{
    trace::make(LIMIT, ops, table)
}
