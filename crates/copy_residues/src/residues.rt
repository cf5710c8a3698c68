// Internal to the workspace, not open to callers: the 40 residues of a copy row by their numbers. Assumes nothing.
ghost use Rattle.std.specs.Prelude.{◌≡◌, ◌<◌};
ghost use Rattle.copy_residues.specs.Residues.{residue, RESIDUES};

use crate::equations;
use crate::parts::Parts;
use copy_row::cols;
use field::element::Element;

pub const NUM_RESIDUES: u64 = 40;

// Document 01: "Each residue is found by its number, 0 to 39". Each case is the equation of that number in `CopyConstraints`, with the
// row's parts in hand.
#[tactic(auto, unfolding(crate::specs::Residues::residue))]
pub fn residue_with(parts: Parts, i: u64) -> Element
    requires { i < RESIDUES }
    ensures { result.value ≡ residue parts.entry.gap.value parts.entry.row.numbers.now i }
{
    let row = parts.row;
    match i {
        0 => equations::bit(row, cols::FIRST),
        1 => equations::bit(row, cols::END),
        2 => equations::bit(row, cols::SINGLE),
        3 => equations::bit(row, cols::MU),
        4 => equations::bit(row, cols::IS_SET),
        5 => equations::bit(row, cols::IS_WRITE),
        6 => equations::implies_mu(row, cols::FIRST, cols::END),
        7 => equations::one_hot(row),
        8 => equations::implies_mu(row, cols::IS_SET, cols::IS_WRITE),
        9 => equations::first_write(row),
        // src_incr, dst_incr: SRC_INCR is SRC + step, and DST_INCR is DST + step, but for multiples of 2^64. Without them the next row
        // could go on at any address.
        10 => parts.src_low.is_bit(),
        11 => parts.src_high.is_bit(),
        12 => parts.dst_low.is_bit(),
        13 => parts.dst_high.is_bit(),
        // count_borrows: COUNT_DECR + step is COUNT, but for multiples of 2^64. Without them the count could fall by anything.
        14 => parts.count_low.is_bit(),
        15 => parts.borrowed.is_bit(),
        16 => equations::dst_res_low(row),
        17 => equations::dst_res_high(row),
        18 => equations::dst_res_non_write(row, 0),
        19 => equations::dst_res_non_write(row, 1),
        20 => equations::set_gap_low(parts.gap, row),
        21 => equations::set_gap_high(parts.gap, row),
        22..=28 => equations::single_lane(row, (i - 19) as usize),
        29 => equations::borrow_implies(parts, cols::FIRST),
        30 => equations::borrow_implies_zero(parts, cols::COUNT_0),
        31 => equations::borrow_implies_zero(parts, cols::COUNT_1),
        32 => equations::end_implies(parts, row.cell(cols::COUNT_1)),
        33 => equations::end_implies(parts, row.cell(cols::COUNT_0) - parts.width),
        34 => equations::borrow_implies(parts, cols::END),
        35 => equations::mu_com(parts),
        36 => equations::mu_com_wide(row),
        37 => equations::no_wrap(parts, cols::SRC_0, parts.src_high),
        38 => equations::no_wrap(parts, cols::DST_0, parts.dst_high),
        _ => equations::gap_no_wrap(parts.gap, row),
    }
}
