// The residues of the three access tables, open to callers one at a time: any slice of numbers and any residue number. Document 01:
// "General table and residues (49 columns, 15): memw.rs". Assumes nothing.
#![tactic(auto)]

pub mod equations;
pub mod residues;

ghost use Rattle.std.specs.Prelude.{◌≡◌, true};
ghost use Rattle.access.specs.declared.AccessTable.TheVariants.{General, Aligned, Register};
ghost use Rattle.memw_residues.specs.Answers.{memw_residue_answer, memw_residue_numbers};
ghost use Rattle.memw_residues.specs.MadeRows.{MadeRowsZero};

use access::AccessTable;
use field::element::Element;
use field::rows::RowRefusal;
use residues::residue_in;

// The columns that both the general and the aligned table's residues read.
#[derive(Clone, Copy)]
pub struct Flags {
    pub mu_read: Element,
    pub mu_write: Element,
    pub write2: Element,
    pub write4: Element,
    pub write8: Element,
}

// The residue of a row of the general table that has the given number, 0 to 14.
pub fn memw_residue(row: &[u64], number: u64) -> Result<u64, RowRefusal>
    ensures answer { memw_residue_numbers result ≡ memw_residue_numbers (memw_residue_answer General row.now number) }
{
    residue_in(AccessTable::General, row, number)
}

// The residue of a row of the aligned table that has the given number, 0 to 7.
pub fn memw_aligned_residue(row: &[u64], number: u64) -> Result<u64, RowRefusal>
    ensures answer { memw_residue_numbers result ≡ memw_residue_numbers (memw_residue_answer Aligned row.now number) }
{
    residue_in(AccessTable::Aligned, row, number)
}

// The residue of a row of the register table that has the given number, 0 to 2.
pub fn memw_register_residue(row: &[u64], number: u64) -> Result<u64, RowRefusal>
    ensures answer { memw_residue_numbers result ≡ memw_residue_numbers (memw_residue_answer Register row.now number) }
{
    residue_in(AccessTable::Register, row, number)
}

// That every made row of the three tables zeroes its residues is its contract.
#[tactic(auto, using(crate::proofs::MadeRows::made_rows_zero))]
pub fn made_rows_zero_holds() -> bool
    ensures { (result ≡ true) × MadeRowsZero }
{
    true
}
