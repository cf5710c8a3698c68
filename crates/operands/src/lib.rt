// Operands of a 64-bit sum and the sum's two residues, on one copy row. Document 01: "An `AddOperand` is two neighbouring word columns, or
// a low and a high sum of at most four terms"; `emit_add_pair` and `add_pair_carry_hi` of the templates, evaluated on a row. The terms
// stand in arrays beside the kind. Assumes nothing.
#![tactic(auto)]

pub mod judge;
pub mod value;

ghost use Rattle.std.specs.Prelude.{◌≡◌};
ghost use Rattle.operands.specs.Answers.{pair_answer, pair_numbers, carry_answer, carry_numbers};

use field::rows::{RowRefusal, element_row};
use judge::{operands_in_row, pair_row};
use value::{carries, pair_values};

// A term of a sum: a constant, or a coefficient times a column.
#[derive(Clone, Copy)]
pub enum AddLinearTerm {
    Constant(i64),
    Column { coefficient: i64, column: usize },
}

// Two neighbouring word columns, by the low one; or a low and a high sum, by how many terms each has.
#[derive(Clone, Copy)]
pub enum OperandKind {
    Words { column: usize },
    Sums { low: usize, high: usize },
}

// An operand of a 64-bit sum. Terms past a sum's number are not looked at.
#[derive(Clone, Copy)]
pub struct AddOperand {
    pub kind: OperandKind,
    pub low: [AddLinearTerm; 4],
    pub high: [AddLinearTerm; 4],
}

// The two residues of `emit_add_pair`.
#[derive(Clone, Copy)]
pub struct PairResidues {
    pub low: u64,
    pub high: u64,
}

// c0(1 - c0) and c1(1 - c1) of lhs + rhs = sum on the row, times the sum of the condition columns if there are any; or 12, 13, 14.
#[tactic(auto, unfolding(crate::specs::Answers::pair_answer))]
pub fn emit_add_pair(
    conditions: &[u64],
    lhs: AddOperand,
    rhs: AddOperand,
    sum: AddOperand,
    row: &[u64],
) -> Result<PairResidues, RowRefusal>
    ensures answer { pair_numbers result ≡ pair_numbers (pair_answer conditions.now lhs rhs sum row.now) }
{
    let row = pair_row(conditions, lhs, rhs, sum, row)?;
    let values = pair_values(conditions, lhs, rhs, sum, row);
    Ok(PairResidues {
        low: values.low.value,
        high: values.high.value,
    })
}

// c1, the carry out of the high words of lhs + rhs = sum on the row; or 12, 13, 14.
#[tactic(auto, unfolding(crate::specs::Answers::carry_answer))]
pub fn add_pair_carry_hi(
    lhs: AddOperand,
    rhs: AddOperand,
    sum: AddOperand,
    row: &[u64],
) -> Result<u64, RowRefusal>
    ensures answer { carry_numbers result ≡ carry_numbers (carry_answer lhs rhs sum row.now) }
{
    let row = element_row(operands_in_row(lhs, rhs, sum), row)?;
    Ok(carries(lhs, rhs, sum, row).high.value)
}
