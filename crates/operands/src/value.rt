// Internal to the workspace, not open to callers: values of terms and operands on a copy row, and the carries and residues of their sums.
// Assumes nothing.
ghost use Rattle.std.specs.Prelude.{◌≡◌, true};
ghost use Rattle.operands.specs.Operands.{signed_p, term_value, terms_value, low_value, high_value};
ghost use Rattle.operands.specs.Operands.{term_in_row, sum_in_row, operand_in_row, operands_in_row, conditions_in_row};
ghost use Rattle.operands.specs.Pairs.{carry_lo, carry_hi, condition_sum, gated as gatedBy, residue_lo, residue_hi};

use crate::{AddLinearTerm, AddOperand, OperandKind};
use copy_residues::CopyRow;
use copy_residues::carries::{carry_high, carry_low};
use field::element::{Element, P, ZERO};

// The carries c0 and c1.
#[derive(Clone, Copy)]
pub struct CarryPair {
    pub low: Element,
    pub high: Element,
}

// The two residues of `emit_add_pair` and the high carry.
#[derive(Clone, Copy)]
pub struct PairValues {
    pub low: Element,
    pub high: Element,
    pub carry: Element,
}

// A signed number as an element.
#[tactic(auto, unfolding(crate::specs::Operands::signed_p))]
fn from_signed(n: i64) -> Element
    ensures { result.value ≡ signed_p n }
{
    Element {
        value: if n < 0 {
            P - n.unsigned_abs()
        } else {
            n as u64
        },
    }
}

// A term on a row.
#[tactic(auto, unfolding(crate::specs::Operands::term_value, crate::specs::Operands::term_in_row))]
fn term_value(t: AddLinearTerm, row: CopyRow) -> Element
    requires { term_in_row t ≡ true }
    ensures { result.value ≡ term_value row.entry.numbers.now t }
{
    match t {
        AddLinearTerm::Constant(n) => from_signed(n),
        AddLinearTerm::Column {
            coefficient,
            column,
        } => from_signed(coefficient) * row.cell(column),
    }
}

// The sum of the first n terms of an array on a row.
fn terms_value(terms: [AddLinearTerm; 4], n: usize, row: CopyRow) -> Element
    requires { sum_in_row terms n ≡ true }
    ensures { result.value ≡ terms_value row.entry.numbers.now terms n }
{
    let mut total = ZERO;
    for k in 0..n {
        total = total + term_value(terms[k], row);
    }
    total
}

// An operand's low value on a row.
#[tactic(auto, unfolding(crate::specs::Operands::low_of, crate::specs::Operands::kind_in_row))]
fn low_value(o: AddOperand, row: CopyRow) -> Element
    requires { operand_in_row o ≡ true }
    ensures { result.value ≡ low_value row.entry.numbers.now o }
{
    match o.kind {
        OperandKind::Words { column } => row.cell(column),
        OperandKind::Sums { low, high: _ } => terms_value(o.low, low, row),
    }
}

// An operand's high value on a row.
#[tactic(auto, unfolding(crate::specs::Operands::high_of, crate::specs::Operands::kind_in_row))]
fn high_value(o: AddOperand, row: CopyRow) -> Element
    requires { operand_in_row o ≡ true }
    ensures { result.value ≡ high_value row.entry.numbers.now o }
{
    match o.kind {
        OperandKind::Words { column } => row.cell(column + 1),
        OperandKind::Sums { low: _, high } => terms_value(o.high, high, row),
    }
}

// Both carries of lhs + rhs = sum.
#[tactic(auto, unfolding(crate::specs::Operands::operands_in_row, crate::specs::Pairs::carry_lo, crate::specs::Pairs::carry_hi))]
pub fn carries(lhs: AddOperand, rhs: AddOperand, sum: AddOperand, row: CopyRow) -> CarryPair
    requires { operands_in_row lhs rhs sum ≡ true }
    ensures low { result.low.value ≡ carry_lo row.entry.numbers.now lhs rhs sum }
    ensures high { result.high.value ≡ carry_hi row.entry.numbers.now lhs rhs sum }
{
    let low = carry_low(
        low_value(lhs, row),
        low_value(rhs, row),
        low_value(sum, row),
    );
    let high = carry_high(
        high_value(lhs, row),
        high_value(rhs, row),
        low,
        high_value(sum, row),
    );
    CarryPair { low, high }
}

// The sum of the condition columns.
fn condition_sum(conditions: &[u64], row: CopyRow) -> Element
    requires { conditions_in_row conditions.now ≡ true }
    ensures { result.value ≡ condition_sum conditions.now row.entry.numbers.now }
{
    let mut total = ZERO;
    for column in conditions {
        total = total + row.cell(*column as usize);
    }
    total
}

// x, times the sum of the condition columns if there are any.
#[tactic(auto, using(crate::proofs::Pairs::gated_none, crate::proofs::Pairs::gated_some))]
fn gated(conditions: &[u64], row: CopyRow, x: Element) -> Element
    requires { conditions_in_row conditions.now ≡ true }
    ensures { result.value ≡ gatedBy conditions.now row.entry.numbers.now x.value }
{
    if conditions.is_empty() {
        return x;
    }
    condition_sum(conditions, row) * x
}

// The two residues and the high carry of lhs + rhs = sum.
#[tactic(auto, unfolding(crate::specs::Pairs::residue_lo, crate::specs::Pairs::residue_hi))]
pub fn pair_values(
    conditions: &[u64],
    lhs: AddOperand,
    rhs: AddOperand,
    sum: AddOperand,
    row: CopyRow,
) -> PairValues
    requires { (conditions_in_row conditions.now ≡ true) × (operands_in_row lhs rhs sum ≡ true) }
    ensures low { result.low.value ≡ residue_lo conditions.now row.entry.numbers.now lhs rhs sum }
    ensures high { result.high.value ≡ residue_hi conditions.now row.entry.numbers.now lhs rhs sum }
    ensures carry { result.carry.value ≡ carry_hi row.entry.numbers.now lhs rhs sum }
{
    let c = carries(lhs, rhs, sum, row);
    let low = gated(conditions, row, c.low.is_bit());
    let high = gated(conditions, row, c.high.is_bit());
    PairValues {
        low,
        high,
        carry: c.high,
    }
}
