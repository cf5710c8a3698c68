// Internal to the workspace, not open to callers: whether a copy row is right, on plain numbers. The row check asks this first; the
// residues of a row by their numbers are worked out only where it answers false. Assumes nothing but what each `requires` says.
ghost use Rattle.std.specs.Prelude.{◌≡◌, true, ◌↔◌, ◌+◌, ◌^◌, ◌<◌, length, Ok};
ghost use Rattle.lists.specs.Lists.{at};
ghost use Rattle.copy_row.specs.Columns.{COUNT, SINGLE, COLUMNS};
ghost use Rattle.copy_residues.specs.RowCheck.{row_fault};
ghost use Rattle.copy_meaning.specs.ReadRow.{words_at, halves_at};
ghost use Rattle.copy_meaning.specs.Inner.{TwoWords, FourHalves};
ghost use Rattle.copy_meaning.specs.Plain.{FlagsAt, MovesAt, CountsAt, ResultAt, GapAt, TailAt};
ghost use Rattle.row_test.specs.Inner.{Caps, caps_prop};

use crate::tests;
use copy_residues::range::{HALF, WORD, limits};
use copy_row::cols;

// What a flag lies below.
const BIT: u64 = 2;

// Each column lies below its cap. No early way out: joined so, columns of one cap are compared at once.
fn fits(row: &[u64]) -> bool
    requires { length row.now ≡ COLUMNS }
    ensures { (result ≡ true) ↔ Caps row.now }
{
    let caps = limits(BIT);
    let mut ok = true;
    for c in 0..cols::NUM_COLUMNS {
        ok = ok & (row[c] < caps[c]);
    }
    ok
}

// A row of 41 columns, each below its cap.
#[derive(Clone, Copy)]
pub struct CappedRow<'a> {
    pub numbers: &'a [u64],
    ghost wide: { length numbers.now ≡ COLUMNS },
    ghost caps: { Caps numbers.now } by { caps_prop numbers.now },
}

// The number in the two words from column c on.
pub fn words_at(row: &[u64], c: usize) -> u64
    requires row_len { (length row.now ≡ COLUMNS) × (c + 1 < COLUMNS) }
    requires two_words { TwoWords row.now c }
    ensures { result ≡ words_at row.now c }
{
    row[c] + WORD * row[c + 1]
}

// The number in the four halves from column c on.
pub fn halves_at(row: &[u64], c: usize) -> u64
    requires row_len { (length row.now ≡ COLUMNS) × (c + 3 < COLUMNS) }
    requires four_halves { FourHalves row.now c }
    ensures { result ≡ halves_at row.now c }
{
    row[c] + HALF * row[c + 1] + WORD * (row[c + 2] + HALF * row[c + 3])
}

// A row of one byte has seven zeros after it.
fn tail(row: CappedRow) -> bool
    ensures { (result ≡ true) ↔ TailAt row.entry.numbers.now }
{
    (row.numbers[cols::SINGLE] == 0)
        | ((row.numbers[cols::VALUE_0 + 1] == 0)
            & (row.numbers[cols::VALUE_0 + 2] == 0)
            & (row.numbers[cols::VALUE_0 + 3] == 0)
            & (row.numbers[cols::VALUE_0 + 4] == 0)
            & (row.numbers[cols::VALUE_0 + 5] == 0)
            & (row.numbers[cols::VALUE_0 + 6] == 0)
            & (row.numbers[cols::VALUE_0 + 7] == 0))
}

#[tactic(auto, using(crate::proofs::Columns::flag_bit))]
fn flags_at(row: CappedRow, count: u64) -> bool
    requires { count ≡ words_at row.numbers.now COUNT }
    ensures { (result ≡ true) ↔ FlagsAt row.entry.numbers.now }
{
    tests::flags(
        row.numbers[cols::FIRST],
        row.numbers[cols::END],
        row.numbers[cols::SINGLE],
        row.numbers[cols::IS_SET],
        row.numbers[cols::IS_WRITE],
        row.numbers[cols::FIRST_WRITE],
        row.numbers[cols::MU],
        row.numbers[cols::MU_COM],
        row.numbers[cols::MU_COM_WIDE],
        count,
    )
}

// SRC or DST, its words at c.
#[tactic(auto, using(crate::proofs::Columns::flag_bit))]
fn moves_at(row: CappedRow, c: usize, count: u64) -> bool
    requires inside { (c + 5 < COLUMNS) × (count ≡ words_at row.numbers.now COUNT) }
    requires words { TwoWords row.numbers.now c × FourHalves row.numbers.now (c + 2) }
    ensures { (result ≡ true) ↔ MovesAt row.entry.numbers.now c }
{
    let x = words_at(row.numbers, c);
    let next = halves_at(row.numbers, c + 2);
    tests::moves(
        row.numbers[cols::SINGLE],
        row.numbers[cols::MU],
        count,
        x,
        next,
    )
}

#[tactic(auto, using(crate::proofs::Columns::flag_bit, crate::proofs::Columns::count_decr_capped))]
fn counts_at(row: CappedRow, count: u64) -> bool
    requires { count ≡ words_at row.numbers.now COUNT }
    ensures { (result ≡ true) ↔ CountsAt row.entry.numbers.now }
{
    let next = halves_at(row.numbers, cols::COUNT_DECR_0);
    tests::counts(
        row.numbers[cols::SINGLE],
        row.numbers[cols::END],
        count,
        next,
    )
}

#[tactic(auto, using(crate::proofs::Columns::flag_bit, crate::proofs::Columns::dst_capped, crate::proofs::Columns::res_capped))]
fn results_at(row: CappedRow, count: u64) -> bool
    requires { count ≡ words_at row.numbers.now COUNT }
    ensures { (result ≡ true) ↔ ResultAt row.entry.numbers.now }
{
    let dst = words_at(row.numbers, cols::DST_0);
    let res = halves_at(row.numbers, cols::DST_RES_0);
    tests::results(row.numbers[cols::IS_WRITE], dst, count, res)
}

#[tactic(auto, using(crate::proofs::Columns::flag_bit, crate::proofs::Columns::src_capped, crate::proofs::Columns::dst_capped))]
fn gapped_at(gap: u64, row: CappedRow) -> bool
    ensures { (result ≡ true) ↔ GapAt gap row.entry.numbers.now }
{
    let src = words_at(row.numbers, cols::SRC_0);
    let dst = words_at(row.numbers, cols::DST_0);
    tests::gapped(gap, row.numbers[cols::IS_SET], src, dst)
}

// The sums, bits and conditions of a row whose columns fit. Left early, so that fewer of the 41 numbers are wanted at a time.
#[tactic(auto, using(crate::proofs::Columns::src_capped, crate::proofs::Columns::src_incr_capped, crate::proofs::Columns::dst_capped, crate::proofs::Columns::dst_incr_capped, crate::proofs::Columns::count_capped))]
fn tests_hold(gap: u64, row: CappedRow) -> bool
    requires { gap < 2 ^ 32 }
    ensures { (result ≡ true) ↔ (row_fault gap row.entry.numbers.now ≡ Ok tt) }
{
    let count = words_at(row.numbers, cols::COUNT_0);
    if !(flags_at(row, count) & tail(row)) {
        return false;
    }
    if !(moves_at(row, cols::SRC_0, count) & moves_at(row, cols::DST_0, count)) {
        return false;
    }
    counts_at(row, count) & results_at(row, count) & gapped_at(gap, row)
}

// Whether the row check finds nothing: 14, 15 and the 40 residues, without working out a residue.
pub fn is_plain(gap: u64, row: &[u64]) -> bool
    requires { (gap < 2 ^ 32) × (length row.now ≡ COLUMNS) }
    ensures { (result ≡ true) ↔ (row_fault gap row.now ≡ Ok tt) }
{
    if !fits(row) {
        return false;
    }
    tests_hold(gap, CappedRow { numbers: row })
}
