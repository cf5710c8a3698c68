// Internal to the crate: the equations of `CopyConstraints` in copy.rs, one function for each kind, by the names of its constraints. Each
// gives the equation's left side on a row of elements; its comment says what a row could do without it. A factor that is 0 on the rows of
// right calls comes first. Assumes nothing.
ghost use Rattle.std.specs.Prelude.{◌≡◌, ◌+◌, ◌<◌};
ghost use Rattle.lists.specs.Lists.{at};
ghost use Rattle.field.specs.Field.{bit_p};
ghost use Rattle.copy_row.specs.Columns.{IS_SET, IS_WRITE, COLUMNS};
ghost use Rattle.copy_residues.specs.Residues.{res_low, res_high, gap_low, gap_high, incr_high, implies_mu, one_hot, first_write, gated_bit, dst_res_non_write, single_lane};
ghost use Rattle.copy_residues.specs.Residues.{borrow_implies, borrow_implies_zero, end_implies, mu_com_is, mu_com_wide_is, no_wrap, gap_no_wrap};

use crate::parts::Parts;
use crate::{CopyRow, carries};
use copy_row::cols;
use field::element::{Element, ONE, ZERO};

// range_first, range_end, range_single, range_mu, range_is_set, range_is_write: column c is a bit. Without it a flag could be any element
// and weigh an access by it.
pub fn bit(row: CopyRow, c: usize) -> Element
    requires { c < COLUMNS }
    ensures { result.value ≡ bit_p (at row.entry.numbers.now c) }
{
    row.cell(c).is_bit()
}

// first_or_end_implies_mu (FIRST, END), functionality_implies_mu (IS_SET, IS_WRITE): these flags stand on a live row only. Without it a
// dead row could open or end a call, or be a Set or a Write.
#[tactic(auto, using(field::proofs::Laws::mul_p_comm), unfolding(crate::specs::Residues::implies_mu))]
pub fn implies_mu(row: CopyRow, a: usize, b: usize) -> Element
    requires { (a < COLUMNS) × (b < COLUMNS) }
    ensures { result.value ≡ implies_mu row.entry.numbers.now a b }
{
    (ONE - row.cell(cols::MU)) * (row.cell(a) + row.cell(b))
}

// one_hot: a row is no Set and Write at once. Without it one row could have two kinds.
#[tactic(auto, unfolding(crate::specs::Residues::one_hot))]
pub fn one_hot(row: CopyRow) -> Element
    ensures { result.value ≡ one_hot row.entry.numbers.now }
{
    row.cell(cols::IS_SET) * row.cell(cols::IS_WRITE)
}

// first_write: FIRST_WRITE is FIRST on a Write. Without it a Write could begin without the check of register 10.
#[tactic(auto, unfolding(crate::specs::Residues::first_write))]
pub fn first_write(row: CopyRow) -> Element
    ensures { result.value ≡ first_write row.entry.numbers.now }
{
    row.cell(cols::FIRST_WRITE) - row.cell(cols::FIRST) * row.cell(cols::IS_WRITE)
}

// dst_res_is_write: on a Write DST_RES is DST + COUNT, word by word. Without them a Write could hand back any commit index. On a row that is
// none the carry is not worked out: what it is made of is bound there by no other equation, and it takes products.
#[tactic(auto, using(field::proofs::Laws::zero_mul_p), unfolding(crate::specs::Residues::gated_bit))]
pub fn dst_res_low(row: CopyRow) -> Element
    ensures { result.value ≡ gated_bit row.entry.numbers.now IS_WRITE (res_low row.entry.numbers.now) }
{
    let write = row.cell(cols::IS_WRITE);
    if write.value == 0 {
        return ZERO;
    }
    write * carries::res_low(row).is_bit()
}

#[tactic(auto, using(field::proofs::Laws::zero_mul_p), unfolding(crate::specs::Residues::gated_bit))]
pub fn dst_res_high(row: CopyRow) -> Element
    ensures { result.value ≡ gated_bit row.entry.numbers.now IS_WRITE (res_high row.entry.numbers.now) }
{
    let write = row.cell(cols::IS_WRITE);
    if write.value == 0 {
        return ZERO;
    }
    write * carries::res_high(row).is_bit()
}

// set_gap: on a Set DST is SRC + gap, word by word. Without them a Set could copy a cell onto itself and put any bytes there. On a row that
// is none the carry is not worked out either.
#[tactic(auto, using(field::proofs::Laws::zero_mul_p), unfolding(crate::specs::Residues::gated_bit))]
pub fn set_gap_low(gap: Element, row: CopyRow) -> Element
    ensures { result.value ≡ gated_bit row.entry.numbers.now IS_SET (gap_low gap.value row.entry.numbers.now) }
{
    let set = row.cell(cols::IS_SET);
    if set.value == 0 {
        return ZERO;
    }
    set * carries::gap_low(gap, row).is_bit()
}

#[tactic(auto, using(field::proofs::Laws::zero_mul_p), unfolding(crate::specs::Residues::gated_bit))]
pub fn set_gap_high(gap: Element, row: CopyRow) -> Element
    ensures { result.value ≡ gated_bit row.entry.numbers.now IS_SET (gap_high gap.value row.entry.numbers.now) }
{
    let set = row.cell(cols::IS_SET);
    if set.value == 0 {
        return ZERO;
    }
    set * carries::gap_high(gap, row).is_bit()
}

// dst_res_non_write: DST_RES is DST on a row that is no Write, w 0 for the low word, 1 for the high one. Without it a Copy or a Set could
// hand back any address.
#[tactic(auto, unfolding(crate::specs::Residues::dst_res_non_write))]
pub fn dst_res_non_write(row: CopyRow, w: usize) -> Element
    requires { w < 2 }
    ensures { result.value ≡ dst_res_non_write row.entry.numbers.now w }
{
    let moved = carries::halves_word(row, cols::DST_RES_0 + w + w) - row.cell(cols::DST_0 + w);
    (ONE - row.cell(cols::IS_WRITE)) * moved
}

// single_lanes: value column c is 0 on a row of one byte. Without it such a row could carry seven bytes more.
#[tactic(auto, unfolding(crate::specs::Residues::single_lane))]
pub fn single_lane(row: CopyRow, c: usize) -> Element
    requires { c < COLUMNS }
    ensures { result.value ≡ single_lane row.entry.numbers.now c }
{
    row.cell(cols::SINGLE) * row.cell(c)
}

// borrow_implies_first (FIRST), borrow_implies_end (END): a row that borrows has the mark in column c. Without it an empty row could
// stand inside a call, or a call of count 0 go on.
#[tactic(auto, unfolding(crate::specs::Residues::borrow_implies))]
pub fn borrow_implies(parts: Parts, c: usize) -> Element
    requires { c < COLUMNS }
    ensures { result.value ≡ borrow_implies parts.entry.row.numbers.now c }
{
    parts.borrowed * (ONE - parts.row.cell(c))
}

// borrow_implies_count_is_zero: word c of COUNT is 0 where the row borrows. Without it a row could move more bytes than are left.
#[tactic(auto, unfolding(crate::specs::Residues::borrow_implies_zero))]
pub fn borrow_implies_zero(parts: Parts, c: usize) -> Element
    requires { c < COLUMNS }
    ensures { result.value ≡ borrow_implies_zero parts.entry.row.numbers.now c }
{
    parts.borrowed * parts.row.cell(c)
}

// end_implies_count_is_step_or_zc_upper and _lower: a last row that does not borrow has as many bytes left as it moves, word x of what is
// left over being 0. Without them a call could end with bytes unmoved.
#[tactic(auto, unfolding(crate::specs::Residues::end_implies))]
pub fn end_implies(parts: Parts, x: Element) -> Element
    ensures { result.value ≡ end_implies parts.entry.row.numbers.now x.value }
{
    parts.row.cell(cols::END) * (ONE - parts.borrowed) * x
}

// MU_COM is MU - borrow on a Write, else 0. Without it a Write's bytes could be left out of the output, or bytes put in that it has not.
#[tactic(auto, using(field::proofs::Laws::mul_p_comm), unfolding(crate::specs::Residues::mu_com_is))]
pub fn mu_com(parts: Parts) -> Element
    ensures { result.value ≡ mu_com_is parts.entry.row.numbers.now }
{
    let row = parts.row;
    row.cell(cols::MU_COM) - row.cell(cols::IS_WRITE) * (row.cell(cols::MU) - parts.borrowed)
}

// MU_COM_WIDE is MU_COM on a row of eight bytes, else 0. Without it a Write of one byte could put out eight.
#[tactic(auto, unfolding(crate::specs::Residues::mu_com_wide_is))]
pub fn mu_com_wide(row: CopyRow) -> Element
    ensures { result.value ≡ mu_com_wide_is row.entry.numbers.now }
{
    row.cell(cols::MU_COM_WIDE) - row.cell(cols::MU_COM) * (ONE - row.cell(cols::SINGLE))
}

// The sum of the address at column c and the step does not pass 2^64 on a row that moves bytes; `high` is its carry. Without it a call
// could run past the last address and go on at 0.
#[tactic(auto, using(field::proofs::Laws::mul_p_comm), unfolding(crate::specs::Residues::no_wrap))]
pub fn no_wrap(parts: Parts, c: usize, high: Element) -> Element
    requires is { high.value ≡ incr_high parts.row.numbers.now c }
    ensures { result.value ≡ no_wrap parts.entry.row.numbers.now c }
{
    high * (parts.row.cell(cols::MU) - parts.borrowed)
}

// The sum of SRC and the gap does not pass 2^64 on a Set. Without it a Set of single bytes could run from the last addresses to the first.
#[tactic(auto, using(field::proofs::Laws::zero_mul_p), unfolding(crate::specs::Residues::gap_no_wrap))]
pub fn gap_no_wrap(gap: Element, row: CopyRow) -> Element
    ensures { result.value ≡ gap_no_wrap gap.value row.entry.numbers.now }
{
    let set = row.cell(cols::IS_SET);
    if set.value == 0 {
        return ZERO;
    }
    set * carries::gap_high(gap, row)
}
