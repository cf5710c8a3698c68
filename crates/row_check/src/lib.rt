// The row check: whether one copy row, which anybody may have filled in, is right by itself. Document 02: "Our fitters look at a single
// suspicious row with no neighbours." The chain check asks the same of each of its rows. Assumes nothing.
#![tactic(auto)]

pub mod fault;

ghost use Rattle.std.specs.Prelude.{◌≡◌, true};
ghost use Rattle.row_check.specs.Instances.{Instances};
ghost use Rattle.row_check.specs.RowAnswer.{place_in, row_answer, fault_numbers, row_refused_numbers, row_numbers};

use answer::{Answer, refuse};
use copy_residues::faults::RowCheckRefusal;
use copy_row::cols::NUM_COLUMNS;
use fault::row_fault;
use field::rows::first_large;

// Why one row is refused.
#[derive(Clone, Copy)]
pub enum RowRefused {
    // 7: the gap is 2^32 or more
    GapTooLarge,
    // 13: the numbers are not those of one row
    NotRow,
    // 14, 15, 16, with the place of the refusal
    Row { place: u64, why: RowCheckRefusal },
}

// Checks one row of 41 numbers under a gap: nothing, or the first check that fails. A dead row and a live row without FIRST are judged
// like any other.
#[tactic(auto, using(crate::proofs::Answers::gap_large, crate::proofs::Answers::not_row, crate::proofs::Answers::judged))]
pub fn row_check(gap: u64, row: &[u64]) -> Result<(), RowRefused>
    ensures answer { row_numbers result ≡ row_numbers (row_answer gap row.now) }
{
    if 0x1_0000_0000 <= gap {
        return Err(RowRefused::GapTooLarge);
    }
    if row.len() != NUM_COLUMNS {
        return Err(RowRefused::NotRow);
    }
    match row_fault(gap, row) {
        Ok(()) => Ok(()),
        Err(why) => Err(RowRefused::Row {
            place: place_in(row, why),
            why,
        }),
    }
}

// Where a row that stands alone is refused: at the lowest number not below p for 14, else at row 0.
fn place_in(row: &[u64], why: RowCheckRefusal) -> u64
    ensures { result ≡ place_in row.now why }
{
    match why {
        RowCheckRefusal::NotElement => first_large(row) as u64,
        RowCheckRefusal::OutOfRange => 0,
        RowCheckRefusal::NotZero { index: _ } => 0,
    }
}

// Document 01's number, place and value of what is wrong with a row; 16 has the residue's index for its value.
pub fn fault_numbers(place: u64, why: RowCheckRefusal) -> Answer
    ensures { result ≡ fault_numbers place why }
{
    match why {
        RowCheckRefusal::NotElement => refuse(14, place),
        RowCheckRefusal::OutOfRange => refuse(15, place),
        RowCheckRefusal::NotZero { index } => Answer {
            number: 16,
            place,
            value: index,
        },
    }
}

// The same of a refusal.
impl From<RowRefused> for Answer {
    ghost from_gives = { λ why a. a ≡ row_refused_numbers why };

    fn from(why: RowRefused) -> Answer {
        match why {
            RowRefused::GapTooLarge => refuse(7, 0),
            RowRefused::NotRow => refuse(13, 0),
            RowRefused::Row { place, why } => fault_numbers(place, why),
        }
    }
}

// And of what a row is found to be.
pub fn row_numbers(found: Result<(), RowRefused>) -> Answer
    ensures { result ≡ row_numbers found }
{
    answer::numbers(found.map(|()| 0))
}

// A row for each of these answers is its contract.
#[tactic(auto, using(crate::proofs::Instances::instances))]
pub fn row_answers_hold() -> bool
    ensures { (result ≡ true) × Instances }
{
    true
}
