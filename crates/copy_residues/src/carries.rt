// Internal to the workspace, not open to callers: what the residues of a copy row are made of, the carries of its sums and the borrow of
// its count. Document 01: "c0 = (lo + lo − sum lo) × 2^−32, c1 = (hi + hi + c0 − sum hi) × 2^−32". Each is found at once on the rows of
// right calls, with no product. Assumes nothing but what each `requires` says.
ghost use Rattle.std.specs.Prelude.{◌≡◌, ◌+◌, ◌<◌};
ghost use Rattle.field.specs.Carries.{carry_p, carry_low, carry_high};
ghost use Rattle.copy_row.specs.Columns.{COLUMNS};
ghost use Rattle.copy_residues.specs.Residues.{halves_word, step, incr_low, incr_high, decr_low, res_low, res_high, gap_low, gap_high, borrow};

use crate::CopyRow;
use copy_row::cols;
use field::element::{Element, INV_SHIFT_32, P, ZERO};

// The word of the two halves from column c on, at once where they are halves.
#[tactic(auto, using(crate::proofs::Sums::plain_word), unfolding(crate::specs::Residues::halves_word))]
pub fn halves_word(row: CopyRow, c: usize) -> Element
    requires { c + 1 < COLUMNS }
    ensures { result.value ≡ halves_word row.entry.numbers.now c }
{
    let low = row.cell(c);
    let high = row.cell(c + 1);
    if (low.value < 65536) & (high.value < 65536) {
        return Element {
            value: low.value + 65536 * high.value,
        };
    }
    low + Element { value: 65536 } * high
}

// The row's width, at once for the two values of SINGLE that a right row has.
#[tactic(auto, using(crate::proofs::Sums::width_of_none, crate::proofs::Sums::width_of_one), unfolding(crate::specs::Residues::step))]
pub fn step(row: CopyRow) -> Element
    ensures { result.value ≡ step row.entry.numbers.now }
{
    let single = row.cell(cols::SINGLE);
    match single.value {
        0 => Element { value: 8 },
        1 => Element { value: 1 },
        _ => Element { value: 8 } + Element { value: P - 7 } * single,
    }
}

// What is left of v after s, times 2^-32, at once for the two differences that a right row has.
#[tactic(auto, using(crate::proofs::Sums::carry_none, crate::proofs::Sums::carry_one), unfolding(field::specs::Carries::carry_p))]
fn carry(v: Element, s: Element) -> Element
    ensures { result.value ≡ carry_p v.value s.value }
{
    let left = v - s;
    match left.value {
        0 => ZERO,
        0x1_0000_0000 => Element { value: 1 },
        _ => left
            * Element {
                value: INV_SHIFT_32,
            },
    }
}

// c0 of the low words a and b and the sum's low word s.
#[tactic(auto, unfolding(field::specs::Carries::carry_low))]
pub fn carry_low(a: Element, b: Element, s: Element) -> Element
    ensures { result.value ≡ carry_low a.value b.value s.value }
{
    carry(a + b, s)
}

// c1 of the high words a and b, c0 and the sum's high word s.
#[tactic(auto, unfolding(field::specs::Carries::carry_high))]
pub fn carry_high(a: Element, b: Element, c: Element, s: Element) -> Element
    ensures { result.value ≡ carry_high a.value b.value c.value s.value }
{
    carry(a + b + c, s)
}

// The carries of the number in words at column c and the step, over the sum in halves two columns on.
#[tactic(auto, unfolding(crate::specs::Residues::incr_low))]
pub fn incr_low(row: CopyRow, c: usize, width: Element) -> Element
    requires columns { c + 5 < COLUMNS }
    requires is { width.value ≡ step row.numbers.now }
    ensures { result.value ≡ incr_low row.entry.numbers.now c }
{
    carry_low(row.cell(c), width, halves_word(row, c + 2))
}

#[tactic(auto, unfolding(crate::specs::Residues::incr_high))]
pub fn incr_high(row: CopyRow, c: usize, low: Element) -> Element
    requires columns { c + 5 < COLUMNS }
    requires is { low.value ≡ incr_low row.numbers.now c }
    ensures { result.value ≡ incr_high row.entry.numbers.now c }
{
    carry_high(row.cell(c + 1), ZERO, low, halves_word(row, c + 4))
}

// The borrows of COUNT - step: the carries of COUNT_DECR and the step, over COUNT. The second is what copy.rs writes out over the columns
// (`borrow_1`).
#[tactic(auto, unfolding(crate::specs::Residues::decr_low))]
pub fn decr_low(row: CopyRow, width: Element) -> Element
    requires is { width.value ≡ step row.numbers.now }
    ensures { result.value ≡ decr_low row.entry.numbers.now }
{
    carry_low(
        halves_word(row, cols::COUNT_DECR_0),
        width,
        row.cell(cols::COUNT_0),
    )
}

#[tactic(auto, using(crate::proofs::CountBorrow::carried), unfolding(crate::specs::Residues::decr_high))]
pub fn count_borrow(row: CopyRow, low: Element) -> Element
    requires is { low.value ≡ decr_low row.numbers.now }
    ensures { result.value ≡ borrow row.entry.numbers.now }
{
    carry_high(
        halves_word(row, cols::COUNT_DECR_0 + 2),
        ZERO,
        low,
        row.cell(cols::COUNT_1),
    )
}

// The carries of DST and COUNT, over DST_RES.
#[tactic(auto, unfolding(crate::specs::Residues::res_low))]
pub fn res_low(row: CopyRow) -> Element
    ensures { result.value ≡ res_low row.entry.numbers.now }
{
    carry_low(
        row.cell(cols::DST_0),
        row.cell(cols::COUNT_0),
        halves_word(row, cols::DST_RES_0),
    )
}

#[tactic(auto, unfolding(crate::specs::Residues::res_high))]
pub fn res_high(row: CopyRow) -> Element
    ensures { result.value ≡ res_high row.entry.numbers.now }
{
    carry_high(
        row.cell(cols::DST_1),
        row.cell(cols::COUNT_1),
        res_low(row),
        halves_word(row, cols::DST_RES_0 + 2),
    )
}

// The carries of SRC and the gap, over DST.
#[tactic(auto, unfolding(crate::specs::Residues::gap_low))]
pub fn gap_low(gap: Element, row: CopyRow) -> Element
    ensures { result.value ≡ gap_low gap.value row.entry.numbers.now }
{
    carry_low(row.cell(cols::SRC_0), gap, row.cell(cols::DST_0))
}

#[tactic(auto, unfolding(crate::specs::Residues::gap_high))]
pub fn gap_high(gap: Element, row: CopyRow) -> Element
    ensures { result.value ≡ gap_high gap.value row.entry.numbers.now }
{
    carry_high(
        row.cell(cols::SRC_1),
        ZERO,
        gap_low(gap, row),
        row.cell(cols::DST_1),
    )
}
