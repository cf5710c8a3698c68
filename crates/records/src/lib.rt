// Lists of records that become tables: what every table maker answers. Assumes nothing.
#![tactic(auto)]

ghost use Rattle.std.specs.Prelude.{◌≡◌};
ghost use Rattle.records.specs.Table.{table_numbers};

use answer::Answer;

pub mod tables;

// Document 01's limit on the records of a list, and on the cells of a window.
pub const LIMIT: usize = 65536;

// Why a table maker makes none. Document 01: tables refuse with "8, 10, 11, 9"; 11 is routing's alone.
#[derive(Clone, Copy)]
pub enum TableRefusal {
    TooManyRecords,
    BadRecord { place: usize },
    BufferShort,
}

// Document 01's number, place and value of an answer, which is the number of rows; `over` is the number of the refusal of too many records.
pub fn numbers(over: u64, found: Result<usize, TableRefusal>) -> Answer
    ensures { result ≡ table_numbers over found }
{
    match found {
        Ok(rows) => answer::accept(rows as u64),
        Err(TableRefusal::TooManyRecords) => answer::refuse(over, 0),
        Err(TableRefusal::BadRecord { place }) => answer::refuse(10, place as u64),
        Err(TableRefusal::BufferShort) => answer::refuse(9, 0),
    }
}
