// The 40 residues of a copy row, open to callers one at a time: any gap, any slice of numbers and any residue number. Document 01: "The 40
// residues are those of `CopyConstraints`, gap for `DMA_MEMSET_GAP`." Assumes nothing.
#![tactic(auto)]

pub mod carries;
mod equations;
pub mod faults;
pub mod parts;
pub mod range;
pub mod residues;

ghost use Rattle.std.specs.Prelude.{◌≡◌};
ghost use Rattle.copy_residues.specs.Answers.{residue_answer, residue_refusal_numbers, residue_numbers};
ghost use Rattle.copy_residues.specs.declared.ResidueRefusal.TheVariants.{Row};

use answer::{Answer, refuse};
use field::element::Element;
use field::rows::{ElementRow, RowRefusal, element_row};
use parts::parts_of;
use residues::{NUM_RESIDUES, residue_with};

// A row of the copy table whose numbers are elements.
pub type CopyRow<'a> = ElementRow<'a, 41>;

// Why there is no residue.
#[derive(Clone, Copy)]
pub enum ResidueRefusal {
    // 7: the gap is 2^32 or more
    GapTooLarge,
    // 12, 13, 14
    Row { why: RowRefusal },
}

impl From<RowRefusal> for ResidueRefusal {
    ghost from_gives = { λ why refusal. refusal ≡ Row why };

    fn from(why: RowRefusal) -> ResidueRefusal {
        ResidueRefusal::Row { why }
    }
}

// Document 01's number, place and value of a refusal.
impl From<ResidueRefusal> for Answer {
    ghost from_gives = { λ why a. a ≡ residue_refusal_numbers why };

    fn from(why: ResidueRefusal) -> Answer {
        match why {
            ResidueRefusal::GapTooLarge => refuse(7, 0),
            ResidueRefusal::Row { why } => why.into(),
        }
    }
}

// The residue of a row under a gap that has the given number, 0 to 39.
#[tactic(auto, using(crate::proofs::ResidueAnswers::gap_too_large_lem, crate::proofs::ResidueAnswers::refused, crate::proofs::ResidueAnswers::found))]
pub fn residue(gap: u64, row: &[u64], number: u64) -> Result<u64, ResidueRefusal>
    ensures answer { residue_numbers result ≡ residue_numbers (residue_answer gap row.now number) }
{
    if 0x1_0000_0000 <= gap {
        return Err(ResidueRefusal::GapTooLarge);
    }
    let row = element_row(number < NUM_RESIDUES, row)?;
    let parts = parts_of(Element { value: gap }, row);
    Ok(residue_with(parts, number).value)
}
