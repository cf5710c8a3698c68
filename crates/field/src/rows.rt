// Internal to the workspace, not open to callers: rows of numbers that are to be elements, and refusals 12, 13 and 14 of what is asked of
// one row. Assumes nothing.
ghost use Rattle.std.specs.Prelude.{◌≡◌, ◌<◌, Ok, Err, IfOk, IfErr};
ghost use Rattle.lists.specs.Lists.{at};
ghost use Rattle.field.specs.Rows.{Elements, first_large, row_verdict, row_refusal_numbers};

use crate::element::{Element, P};
use answer::{Answer, refuse};

// Why nothing is answered of a row. Whoever asks for something on a row hands this on as it is.
#[derive(Clone, Copy)]
pub enum RowRefusal {
    // 12: no residue of this number, an operand of more than four terms, or a column outside the row
    OutsideRow,
    // 13: the row is not of its table's width
    NotRow,
    // 14: a number not below p, with the index of the lowest one
    NotElement { place: u64 },
}

// Document 01's number, place and value of a refusal.
impl From<RowRefusal> for Answer {
    ghost from_gives = { λ why a. a ≡ row_refusal_numbers why };

    fn from(why: RowRefusal) -> Answer {
        match why {
            RowRefusal::OutsideRow => refuse(12, 0),
            RowRefusal::NotRow => refuse(13, 0),
            RowRefusal::NotElement { place } => refuse(14, place),
        }
    }
}

// The index of the lowest number of a slice that is no element, or the slice's length.
#[tactic(auto, using(crate::proofs::FirstLarge::first_large_is, crate::proofs::FirstLarge::large_here, crate::proofs::FirstLarge::large_later, crate::proofs::FirstLarge::large_none))]
pub fn first_large(row: &[u64]) -> usize
    ensures { result ≡ first_large row.now }
{
    for (c, number) in row.iter().enumerate() {
        if P <= *number {
            return c;
        }
    }
    row.len()
}

// The first of 12, 13 and 14 that holds of a row of a table of this width; `inside` says that 12 does not.
pub fn row_verdict(inside: bool, width: usize, row: &[u64]) -> Result<(), RowRefusal>
    ensures { result ≡ row_verdict inside width row.now }
{
    if !inside {
        return Err(RowRefusal::OutsideRow);
    }
    if row.len() != width {
        return Err(RowRefusal::NotRow);
    }
    let place = first_large(row);
    if place < width {
        return Err(RowRefusal::NotElement {
            place: place as u64,
        });
    }
    Ok(())
}

// A row of W elements.
#[derive(Clone, Copy)]
pub struct ElementRow<'a, const W: usize> {
    pub numbers: &'a [u64],
    ghost elements: { Elements W numbers.now },
}

impl<'a, const W: usize> ElementRow<'a, W> {
    // Column c.
    pub fn cell(self, c: usize) -> Element
        requires { c < W }
        ensures { result.value ≡ at self.entry.numbers.now c }
    {
        Element {
            value: self.numbers[c],
        }
    }
}

// A row of a table of this width as elements, or the first of 12, 13 and 14 that holds of it.
pub fn element_row<'a, const W: usize>(
    inside: bool,
    row: &'a [u64],
) -> Result<ElementRow<'a, W>, RowRefusal>
    ensures ok { IfOk result (λ r. (r.numbers.now ≡ row.now) × (row_verdict inside W row.now ≡ Ok tt)) }
    ensures err { IfErr result (λ why. row_verdict inside W row.now ≡ Err why) }
{
    row_verdict(inside, W, row)?;
    Ok(ElementRow { numbers: row })
}
