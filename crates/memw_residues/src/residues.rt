// Internal to the workspace, not open to callers: the residues of the three access tables by their numbers. Assumes nothing but what each
// `requires` says.
ghost use Rattle.std.specs.Prelude.{◌≡◌, ◌<◌};
ghost use Rattle.access.specs.declared.AccessTable.TheVariants.{General, Register};
ghost use Rattle.memw_residues.specs.Residues.{memw_flags, aligned_flags, memw_residue, register_residue, residue_count};
ghost use Rattle.memw_residues.specs.Inner.{flag_numbers};
ghost use Rattle.memw_residues.specs.Answers.{memw_residue_answer};

use crate::Flags;
use crate::equations::{bit_of_sum, flag_residue};
use access::AccessTable;
use field::element::Element;
use field::rows::{ElementRow, RowRefusal, element_row};
use memw::{aligned_cols, cols, register_cols};

// The flags of a row of the general table.
fn memw_flags(row: ElementRow<49>) -> Flags
    ensures { flag_numbers result ≡ memw_flags row.entry.numbers.now }
{
    Flags {
        mu_read: row.cell(cols::MU_READ),
        mu_write: row.cell(cols::MU_WRITE),
        write2: row.cell(cols::WRITE2),
        write4: row.cell(cols::WRITE4),
        write8: row.cell(cols::WRITE8),
    }
}

// The flags of a row of the aligned table.
fn aligned_flags(row: ElementRow<29>) -> Flags
    ensures { flag_numbers result ≡ aligned_flags row.entry.numbers.now }
{
    Flags {
        mu_read: row.cell(aligned_cols::MU_READ),
        mu_write: row.cell(aligned_cols::MU_WRITE),
        write2: row.cell(aligned_cols::WRITE2),
        write4: row.cell(aligned_cols::WRITE4),
        write8: row.cell(aligned_cols::WRITE8),
    }
}

// The general table's residue of a number: CARRY in 4..=10, whose bits could be any element without them; the others are those of the
// flags.
#[tactic(auto, unfolding(crate::specs::Residues::memw_residue))]
fn memw_equation(row: ElementRow<49>, number: u64) -> Element
    requires { number < residue_count General }
    ensures { result.value ≡ memw_residue row.entry.numbers.now number }
{
    match number {
        0..=3 => flag_residue(memw_flags(row), number),
        4..=10 => row.cell(cols::CARRY_0 + (number - 4) as usize).is_bit(),
        _ => flag_residue(memw_flags(row), number - 7),
    }
}

// The register table's residue of a number: its multiplicities are bits, and so is their sum.
#[tactic(auto, unfolding(crate::specs::Residues::register_residue))]
fn register_equation(row: ElementRow<10>, number: u64) -> Element
    requires { number < residue_count Register }
    ensures { result.value ≡ register_residue row.entry.numbers.now number }
{
    let read = row.cell(register_cols::MU_READ);
    let write = row.cell(register_cols::MU_WRITE);
    match number {
        0 => read.is_bit(),
        1 => write.is_bit(),
        _ => bit_of_sum(read, write),
    }
}

// How many residues a table has.
fn residue_count(t: AccessTable) -> u64
    ensures { result ≡ residue_count t }
{
    match t {
        AccessTable::General => 15,
        AccessTable::Aligned => 8,
        AccessTable::Register => 3,
    }
}

// A table's residue of a number, or the first refusal that applies: 12, 13, 14.
#[tactic(auto, unfolding(crate::specs::Answers::memw_residue_answer, crate::specs::Residues::aligned_residue))]
pub fn residue_in(t: AccessTable, row: &[u64], number: u64) -> Result<u64, RowRefusal>
    ensures { result ≡ memw_residue_answer t row.now number }
{
    let inside = number < residue_count(t);
    let residue = match t {
        AccessTable::General => memw_equation(element_row(inside, row)?, number),
        AccessTable::Aligned => flag_residue(aligned_flags(element_row(inside, row)?), number),
        AccessTable::Register => register_equation(element_row(inside, row)?, number),
    };
    Ok(residue.value)
}
