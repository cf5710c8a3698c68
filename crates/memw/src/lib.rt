// The three access tables: access records and register records in a lent list become rows in a lent table. Document 01: "Registers and
// the three access tables". Assumes nothing.
#![tactic(auto)]

pub mod aligned_cols;
pub mod cols;
pub mod register_cols;
pub mod rows;
pub mod tables;
pub mod trace;

ghost use Rattle.records.specs.Records.{LIMIT};
ghost use Rattle.records.specs.Table.{table_numbers};
ghost use Rattle.access.specs.declared.AccessTable.TheVariants.{General, Aligned, Register};
ghost use Rattle.memw.specs.Tables.{MemwDone};

use access::AccessTable;
use records::{LIMIT, TableRefusal};

// An access, of an access record of 29 numbers.
#[derive(Clone, Copy)]
pub struct MemwOperation {
    // 1 for a register, 0 for memory.
    pub is_register: u64,
    pub base_address: u64,
    // Bytes of memory, or the two words of a register.
    pub value: [u64; 8],
    pub timestamp: u64,
    // 1, 2, 4 or 8.
    pub width: u64,
    // 1 for a read, 0 for a write.
    pub is_read: u64,
    pub old: [u64; 8],
    pub old_timestamp: [u64; 8],
}

// A register access, of a register record of 8 numbers.
#[derive(Clone, Copy)]
pub struct RegRow {
    pub index: u64,
    pub timestamp: u64,
    pub value: [u64; 2],
    pub old: [u64; 2],
    pub old_timestamp_lo: u64,
    pub is_read: u64,
}

// Makes the general table of at most 65,536 access records in `table`, 49 numbers to a row: the rows of the records in their order, then
// zeros. Refuses with 8, 10 and 9, in this order, and then writes nothing; so do the other two.
pub fn generate_memw_trace(records: &[u64], table: &mut [u64]) -> Result<usize, TableRefusal>
    ensures { MemwDone General LIMIT 8 records.now table.old (table_numbers 8 result) table.new }
{
    trace::make(AccessTable::General, LIMIT, records, table)
}

// Makes the aligned table of at most 65,536 access records in `table`, 29 numbers to a row.
pub fn generate_memw_aligned_trace(
    records: &[u64],
    table: &mut [u64],
) -> Result<usize, TableRefusal>
    ensures { MemwDone Aligned LIMIT 8 records.now table.old (table_numbers 8 result) table.new }
{
    trace::make(AccessTable::Aligned, LIMIT, records, table)
}

// Makes the register table of at most 65,536 register records of 8 numbers in `table`, 10 numbers to a row.
pub fn generate_memw_register_trace(
    records: &[u64],
    table: &mut [u64],
) -> Result<usize, TableRefusal>
    ensures { MemwDone Register LIMIT 8 records.now table.old (table_numbers 8 result) table.new }
{
    trace::make(AccessTable::Register, LIMIT, records, table)
}
