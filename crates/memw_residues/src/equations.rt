// Internal to the workspace, not open to callers: the equations of `MemwConstraints` on the columns of a row. Assumes nothing but what each
// `requires` says.
ghost use Rattle.std.specs.Prelude.{◌≡◌, ◌<◌};
ghost use Rattle.field.specs.Field.{add_p, sub_p, mul_p, bit_p};
ghost use Rattle.memw_residues.specs.Residues.{mu_sum, w2, flag_residue};
ghost use Rattle.memw_residues.specs.Inner.{flag_numbers};

use crate::Flags;
use field::element::{Element, ONE};

// The sum of two multiplicities is a bit: no row is read and written. Without it a row could count twice.
pub fn bit_of_sum(read: Element, write: Element) -> Element
    ensures { result.value ≡ bit_p (add_p read.value write.value) }
{
    (read + write).is_bit()
}

// The sum of the width flags.
fn w2(flags: Flags) -> Element
    ensures { result.value ≡ w2 (flag_numbers flags) }
{
    flags.write2 + flags.write4 + flags.write8
}

// A row that moves two bytes or more is an access: w2 × (1 − μ_sum). Without it a dead row could move bytes.
fn width_implies_access(flags: Flags) -> Element
    ensures { result.value ≡ mul_p (w2 (flag_numbers flags)) (sub_p 1 (mu_sum (flag_numbers flags))) }
{
    w2(flags) * (ONE - (flags.mu_read + flags.mu_write))
}

// The residues without CARRY, 0 to 7: the general table's 0 to 3 and 11 to 14. A flag that is no bit could be any element.
#[tactic(auto, unfolding(crate::specs::Residues::flag_residue))]
pub fn flag_residue(flags: Flags, i: u64) -> Element
    requires { i < 8 }
    ensures { result.value ≡ flag_residue (flag_numbers flags) i }
{
    match i {
        0 => bit_of_sum(flags.mu_read, flags.mu_write),
        1 => width_implies_access(flags),
        2 => flags.mu_read.is_bit(),
        3 => flags.mu_write.is_bit(),
        4 => flags.write2.is_bit(),
        5 => flags.write4.is_bit(),
        6 => flags.write8.is_bit(),
        _ => w2(flags).is_bit(),
    }
}
