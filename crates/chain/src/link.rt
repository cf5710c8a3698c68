// Internal to this crate: the link check, whether a row that passed the row check may stand where it stands. Document 01: "A live row must have FIRST if it
// opens the list or follows END; otherwise FIRST 0, the timestamp, IS_SET and IS_WRITE of the row before, and SRC, DST, COUNT equal to
// that row's SRC_INCR, DST_INCR, COUNT_DECR." Assumes nothing but what its `requires` says.
ghost use Rattle.std.specs.Prelude.{◌≡◌, ◌+◌, ◌<◌, eqb};
ghost use Rattle.std.proofs.Math.Option.{none, some};
ghost use Rattle.lists.specs.Lists.{same};
ghost use Rattle.copy_row.specs.Columns.{TIMESTAMP, COLUMNS};
ghost use Rattle.copy_meaning.specs.ReadRow.{words_at, halves_at};
ghost use Rattle.copy_meaning.specs.Inner.{TwoWords, FourHalves};
ghost use Rattle.chain.specs.Link.{closed, linked, shown, handed_on, link_fault};
ghost use Rattle.chain.specs.Inner.{standing, is_unended};

use crate::LinkRefusal;
use copy_residues::range::HALF;
use copy_row::cols;
use row_test::row::CappedRow;

// The number in words at column c is the one in halves at column h of the row before. Compared word by word: putting numbers of 64 bits
// together takes longer.
fn moved(previous: CappedRow, row: CappedRow, c: usize, h: usize) -> bool
    requires inside { (c + 1 < COLUMNS) × (h + 3 < COLUMNS) }
    requires two_words { TwoWords row.numbers.now c × FourHalves previous.numbers.now h }
    ensures { result ≡ eqb (words_at row.entry.numbers.now c) (halves_at previous.entry.numbers.now h) }
{
    let (previous, row) = (previous.numbers, row.numbers);
    (row[c] == previous[h] + HALF * previous[h + 1])
        & (row[c + 1] == previous[h + 2] + HALF * previous[h + 3])
}

#[tactic(auto, using(row_test::proofs::Columns::stamp_capped, crate::proofs::Links::stamp_same))]
fn same_stamp(previous: CappedRow, row: CappedRow) -> bool
    ensures { result ≡ eqb (words_at row.entry.numbers.now TIMESTAMP) (words_at previous.entry.numbers.now TIMESTAMP) }
{
    (row.numbers[cols::TIMESTAMP_0] == previous.numbers[cols::TIMESTAMP_0])
        & (row.numbers[cols::TIMESTAMP_0 + 1] == previous.numbers[cols::TIMESTAMP_0 + 1])
}

// The row goes on with the call of the row before.
#[tactic(auto, using(crate::proofs::Links::goes_on_same, row_test::proofs::Columns::src_capped, row_test::proofs::Columns::src_incr_capped, row_test::proofs::Columns::dst_capped, row_test::proofs::Columns::dst_incr_capped, row_test::proofs::Columns::count_capped, row_test::proofs::Columns::count_decr_capped))]
fn goes_on(previous: CappedRow, row: CappedRow) -> bool
    ensures { result ≡ same (shown row.entry.numbers.now) (handed_on previous.entry.numbers.now) }
{
    (row.numbers[cols::FIRST] == 0)
        & same_stamp(previous, row)
        & (row.numbers[cols::IS_SET] == previous.numbers[cols::IS_SET])
        & (row.numbers[cols::IS_WRITE] == previous.numbers[cols::IS_WRITE])
        & moved(previous, row, cols::SRC_0, cols::SRC_INCR_0)
        & moved(previous, row, cols::DST_0, cols::DST_INCR_0)
        & moved(previous, row, cols::COUNT_0, cols::COUNT_DECR_0)
}

// The row may open the list or follow END.
#[tactic(auto, using(crate::proofs::Links::linked_closed))]
fn may_open(row: CappedRow) -> bool
    ensures { result ≡ linked closed row.entry.numbers.now }
{
    (row.numbers[cols::MU] != 1) | (row.numbers[cols::FIRST] == 1)
}

// "A dead row may follow only END, a dead row or nothing; a live row never follows a dead one."
#[tactic(auto, using(crate::proofs::Links::before_dead, crate::proofs::Links::before_ended, crate::proofs::Links::before_unended, crate::proofs::Links::linked_dead, crate::proofs::Links::linked_unended))]
fn linked(previous: Option<CappedRow>, row: CappedRow) -> bool
    ensures { result ≡ linked (standing previous.entry) row.entry.numbers.now }
{
    let Some(previous) = previous else {
        return may_open(row);
    };
    if previous.numbers[cols::MU] != 1 {
        return row.numbers[cols::MU] != 1;
    }
    if previous.numbers[cols::END] == 1 {
        return may_open(row);
    }
    (row.numbers[cols::MU] == 1) & goes_on(previous, row)
}

// The list would end on a live row without END.
#[tactic(auto, using(crate::proofs::Links::unended_before))]
fn unended(previous: Option<CappedRow>) -> bool
    ensures { result ≡ is_unended (standing previous.entry) }
{
    let Some(previous) = previous else {
        return false;
    };
    (previous.numbers[cols::MU] == 1) & (previous.numbers[cols::END] != 1)
}

// 17: a row behind the row before, or at the list's top.
pub fn follow_check(previous: Option<CappedRow>, row: CappedRow) -> Result<(), LinkRefusal>
    ensures { result ≡ link_fault (standing previous.entry) (some row.entry.numbers.now) }
{
    if !linked(previous, row) {
        return Err(LinkRefusal::Broken);
    }
    Ok(())
}

// 18: the list's end behind its last row.
pub fn end_check(previous: Option<CappedRow>) -> Result<(), LinkRefusal>
    ensures { result ≡ link_fault (standing previous.entry) none }
{
    if unended(previous) {
        return Err(LinkRefusal::NotEnded);
    }
    Ok(())
}
