// Internal to the workspace, not open to callers: what is wrong with a copy row by itself, for the row check and the chain check alike.
// Document 01: "row by row 14 to 17", of which 17 is not a row's own. Assumes nothing but what its `requires` says.
ghost use Rattle.std.specs.Prelude.{◌≡◌, ◌^◌, ◌<◌, length};
ghost use Rattle.copy_row.specs.Columns.{COLUMNS};
ghost use Rattle.copy_residues.specs.RowCheck.{row_fault};

use copy_residues::faults::RowCheckRefusal;
use copy_residues::parts::parts_of;
use copy_residues::range::first_out;
use copy_residues::residues::{NUM_RESIDUES, residue_with};
use copy_row::cols::NUM_COLUMNS;
use field::element::Element;
use field::rows::{ElementRow, first_large};
use row_test::row::is_plain;

// 14, 15, then the residues by their numbers, in a loop that is left by its label with the index: document 01 names this form.
#[tactic(auto, using(copy_residues::proofs::RowFaults::not_element, copy_residues::proofs::RowFaults::out_of_range))]
fn by_number(gap: u64, row: &[u64]) -> Result<(), RowCheckRefusal>
    requires { (gap < 2 ^ 32) × (length row.now ≡ COLUMNS) }
    ensures { result ≡ row_fault gap row.now }
{
    if first_large(row) < NUM_COLUMNS {
        return Err(RowCheckRefusal::NotElement);
    }
    if first_out(row) < NUM_COLUMNS {
        return Err(RowCheckRefusal::OutOfRange);
    }
    let parts = parts_of(Element { value: gap }, ElementRow { numbers: row });
    let index = 'residues: {
        for i in 0..NUM_RESIDUES {
            if residue_with(parts, i).value != 0 {
                break 'residues i;
            }
        }
        return Ok(());
    };
    Err(RowCheckRefusal::NotZero { index })
}

// The row check itself: a row that is right on plain numbers has nothing to name, any other is judged by number. That one is handed on as a
// slice of its own: `row` then stays in registers while rows are right.
pub fn row_fault(gap: u64, row: &[u64]) -> Result<(), RowCheckRefusal>
    requires { (gap < 2 ^ 32) × (length row.now ≡ COLUMNS) }
    ensures { result ≡ row_fault gap row.now }
{
    if is_plain(gap, row) {
        return Ok(());
    }
    by_number(gap, &row[0..NUM_COLUMNS])
}
