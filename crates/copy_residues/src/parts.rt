// Internal to the workspace, not open to callers: what many residues of a copy row share, worked out once a row. Assumes nothing.
ghost use Rattle.std.specs.Prelude.{◌≡◌};
ghost use Rattle.copy_row.specs.Columns.{SRC, DST};
ghost use Rattle.copy_residues.specs.Residues.{step, borrow, decr_low, incr_low, incr_high};

use crate::{CopyRow, carries};
use copy_row::cols;
use field::element::Element;

// A row, the gap, and what the row's residues share.
#[derive(Clone, Copy)]
pub struct Parts<'a> {
    pub row: CopyRow<'a>,
    pub gap: Element,
    // the row's width, 8 - 7 SINGLE
    pub width: Element,
    // the two borrows of COUNT - width
    pub count_low: Element,
    pub borrowed: Element,
    // the carries of SRC + width and of DST + width
    pub src_low: Element,
    pub src_high: Element,
    pub dst_low: Element,
    pub dst_high: Element,
    ghost is_width: { width.value ≡ step row.numbers.now },
    ghost is_count_low: { count_low.value ≡ decr_low row.numbers.now },
    ghost is_borrowed: { borrowed.value ≡ borrow row.numbers.now },
    ghost is_src_low: { src_low.value ≡ incr_low row.numbers.now SRC },
    ghost is_src_high: { src_high.value ≡ incr_high row.numbers.now SRC },
    ghost is_dst_low: { dst_low.value ≡ incr_low row.numbers.now DST },
    ghost is_dst_high: { dst_high.value ≡ incr_high row.numbers.now DST },
}

// The parts of a row.
pub fn parts_of<'a>(gap: Element, row: CopyRow<'a>) -> Parts<'a>
    ensures row { result.row.numbers.now ≡ row.entry.numbers.now }
    ensures gap { result.gap.value ≡ gap.value }
{
    let width = carries::step(row);
    let count_low = carries::decr_low(row, width);
    let src_low = carries::incr_low(row, cols::SRC_0, width);
    let dst_low = carries::incr_low(row, cols::DST_0, width);
    Parts {
        row,
        gap,
        width,
        count_low,
        borrowed: carries::count_borrow(row, count_low),
        src_low,
        src_high: carries::incr_high(row, cols::SRC_0, src_low),
        dst_low,
        dst_high: carries::incr_high(row, cols::DST_0, dst_low),
    }
}
