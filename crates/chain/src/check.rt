// Internal to the workspace, not open to callers: the chain check itself. Document 01: "chain check 7, 13, then row by row 14 to 17, then
// 18". Document 02: "The old entry calls both, row by row, in its old order". Assumes nothing.
ghost use Rattle.std.specs.Prelude.{◌≡◌};
ghost use Rattle.chain.specs.Chain.{chain_answer};

use crate::ChainRefusal;
use crate::link::{end_check, follow_check};
use copy_row::cols::NUM_COLUMNS;
use row_check::fault::row_fault;
use row_test::row::CappedRow;

// "The check stops at the first row and, in it, the first check that fails": a loop over rows, left by its label with the row and what the
// row check or the link check says of it; document 01 names this form. "A row is a run of 41 numbers of the list": each row is a slice of its
// own. None stands before the first. The link check stands in one place, so that it is compiled into the loop.
#[tactic(auto, using(crate::proofs::Rows::gap_large, crate::proofs::Rows::not_rows))]
pub fn check(gap: u64, rows: &[u64]) -> Result<u64, ChainRefusal>
    ensures { result ≡ chain_answer gap rows.now }
{
    if 0x1_0000_0000 <= gap {
        return Err(ChainRefusal::GapTooLarge);
    }
    if rows.len() % NUM_COLUMNS != 0 {
        return Err(ChainRefusal::NotRows);
    }
    let n = rows.len() / NUM_COLUMNS;
    let why = 'rows: {
        let mut previous = None;
        for k in 0..n {
            let row = &rows[NUM_COLUMNS * k..NUM_COLUMNS * k + NUM_COLUMNS];
            if let Err(why) = row_fault(gap, row) {
                break 'rows ChainRefusal::Row { row: k as u64, why };
            }
            let row = CappedRow { numbers: row };
            if let Err(why) = follow_check(previous, row) {
                break 'rows ChainRefusal::Link {
                    place: k as u64,
                    why,
                };
            }
            previous = Some(row);
        }
        if let Err(why) = end_check(previous) {
            break 'rows ChainRefusal::Link {
                place: n as u64,
                why,
            };
        }
        return Ok(n as u64);
    };
    Err(why)
}
