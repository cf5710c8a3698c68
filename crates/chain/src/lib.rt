// The chain check: whether a list of copy rows, which anybody may have filled in, is whole calls. Document 01: "Chain check and read-back
// (added)". Document 02: "a row check (14, 15, 16) and a link check (17, 18) over rows that passed, not itself open to callers". A row list
// has no limit. Assumes nothing.
#![tactic(auto)]

pub mod check;
mod link;

ghost use Rattle.std.specs.Prelude.{◌≡◌};
ghost use Rattle.chain.specs.Chain.{chain_answer, link_numbers, refusal_numbers, chain_numbers};

use answer::{Answer, refuse};
use copy_residues::faults::RowCheckRefusal;
use row_check::fault_numbers;

// Why the link check refuses what comes after a row.
#[derive(Clone, Copy)]
pub enum LinkRefusal {
    // 17: a row that may not stand where it stands
    Broken,
    // 18: the list ends on a live row without END
    NotEnded,
}

// Why a row list is refused: what the row check says of a row, or the link check of a place. Whoever checks the chain first hands this on
// as it is.
#[derive(Clone, Copy)]
pub enum ChainRefusal {
    // 7: the gap is 2^32 or more
    GapTooLarge,
    // 13: the list is not a multiple of 41
    NotRows,
    // 14, 15, 16
    Row { row: u64, why: RowCheckRefusal },
    // 17, at a row; 18, at the number of rows
    Link { place: u64, why: LinkRefusal },
}

// Checks a list of rows of 41 numbers under a gap: how many rows it has, or the first check that fails.
pub fn chain_check(gap: u64, rows: &[u64]) -> Result<u64, ChainRefusal>
    ensures answer { chain_numbers result ≡ chain_numbers (chain_answer gap rows.now) }
{
    check::check(gap, rows)
}

// Document 01's number and place of a refusal; the value is the residue's index for 16.
impl From<ChainRefusal> for Answer {
    ghost from_gives = { λ why a. a ≡ refusal_numbers why };

    fn from(why: ChainRefusal) -> Answer {
        match why {
            ChainRefusal::GapTooLarge => refuse(7, 0),
            ChainRefusal::NotRows => refuse(13, 0),
            ChainRefusal::Row { row, why } => fault_numbers(row, why),
            ChainRefusal::Link { place, why } => link_numbers(place, why),
        }
    }
}

// The same of a link that is refused.
fn link_numbers(place: u64, why: LinkRefusal) -> Answer
    ensures { result ≡ link_numbers place why }
{
    match why {
        LinkRefusal::Broken => refuse(17, place),
        LinkRefusal::NotEnded => refuse(18, place),
    }
}
