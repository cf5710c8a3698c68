// Internal to the workspace, not open to callers: what one record and one row of each access table are. Assumes nothing but what each
// `requires` says.
ghost use Rattle.std.specs.Prelude.{◌≡◌, length};
ghost use Rattle.access.specs.Tables.{record_width};
ghost use Rattle.memw.specs.Tables.{row_width, record_row};
ghost use Rattle.memw.specs.Inner.{record_kind};

use crate::rows::{aligned_cells, memw_cells, operation, reg_row, register_cells};
use crate::{AccessTable, aligned_cols, cols, register_cols};
use kinds::RecordKind;
use lists::slices::put;

// Numbers in a row.
pub fn row_width(t: AccessTable) -> usize
    ensures { result ≡ row_width t }
{
    match t {
        AccessTable::General => cols::NUM_COLUMNS,
        AccessTable::Aligned => aligned_cols::NUM_COLUMNS,
        AccessTable::Register => register_cols::NUM_COLUMNS,
    }
}

// The kind of a table's records.
pub fn record_kind(t: AccessTable) -> RecordKind
    ensures { result ≡ record_kind t }
{
    match t {
        AccessTable::General => RecordKind::Access,
        AccessTable::Aligned => RecordKind::Access,
        AccessTable::Register => RecordKind::Register,
    }
}

// Writes the row of a whole record. The general table's row is lent on by numbers that stand here: the compiler then knows how many cells
// there are, and writes them straight into the row. The other rows are lent as they come, or it would join the last writes of all three
// cases, which costs the general table time.
pub fn write_row(t: AccessTable, row: &mut [u64], op: &[u64])
    requires { (length row.old ≡ row_width t) × (length op.now ≡ record_width t) }
    ensures { row.new ≡ record_row t op.now }
{
    match t {
        AccessTable::General => {
            let cells = memw_cells(operation(op));
            put(&mut row[0..cols::NUM_COLUMNS], &cells);
        }
        AccessTable::Aligned => {
            let cells = aligned_cells(operation(op));
            put(row, &cells);
        }
        AccessTable::Register => {
            let cells = register_cells(reg_row(op));
            put(row, &cells);
        }
    }
}
