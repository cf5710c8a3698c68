// Internal to the workspace, not open to callers: refusal 12 of operands and condition columns, and with it 12, 13 and 14 of a row.
// Assumes nothing.
ghost use Rattle.std.specs.Prelude.{◌≡◌, Ok, Err, IfOk, IfErr};
ghost use Rattle.operands.specs.Operands.{term_in_row, sum_in_row, operand_in_row, operands_in_row, conditions_in_row};
ghost use Rattle.operands.specs.Answers.{pair_verdict};

use crate::{AddLinearTerm, AddOperand, OperandKind};
use copy_residues::CopyRow;
use copy_row::cols::NUM_COLUMNS;
use field::rows::{RowRefusal, element_row};

// Whether a term's column, where it has one, is in a copy row.
#[tactic(auto, unfolding(crate::specs::Operands::term_in_row))]
fn term_in_row(t: AddLinearTerm) -> bool
    ensures { result ≡ term_in_row t }
{
    match t {
        AddLinearTerm::Constant(_) => true,
        AddLinearTerm::Column {
            coefficient: _,
            column,
        } => column < NUM_COLUMNS,
    }
}

// Whether a sum has at most four terms, and the first n terms of its array are in a copy row.
#[tactic(auto, using(crate::proofs::Operands::sum_many))]
fn sum_in_row(terms: [AddLinearTerm; 4], n: usize) -> bool
    ensures { result ≡ sum_in_row terms n }
{
    if 4 < n {
        return false;
    }
    for k in 0..n {
        if !term_in_row(terms[k]) {
            return false;
        }
    }
    true
}

// Whether an operand has at most four terms in each sum, and all its columns in a copy row.
#[tactic(auto, unfolding(crate::specs::Operands::kind_in_row))]
fn operand_in_row(o: AddOperand) -> bool
    ensures { result ≡ operand_in_row o }
{
    match o.kind {
        OperandKind::Words { column } => column < NUM_COLUMNS - 1,
        OperandKind::Sums { low, high } => sum_in_row(o.low, low) & sum_in_row(o.high, high),
    }
}

// Whether the three operands of a sum do.
#[tactic(auto, unfolding(crate::specs::Operands::operands_in_row))]
pub fn operands_in_row(lhs: AddOperand, rhs: AddOperand, sum: AddOperand) -> bool
    ensures { result ≡ operands_in_row lhs rhs sum }
{
    operand_in_row(lhs) & operand_in_row(rhs) & operand_in_row(sum)
}

// Whether the condition columns are in a copy row.
fn conditions_in_row(conditions: &[u64]) -> bool
    ensures { result ≡ conditions_in_row conditions.now }
{
    for column in conditions {
        if NUM_COLUMNS as u64 <= *column {
            return false;
        }
    }
    true
}

// A row as elements, where nothing is refused of condition columns, three operands and the row.
#[tactic(auto, unfolding(crate::specs::Answers::pair_verdict))]
pub fn pair_row<'a>(
    conditions: &[u64],
    lhs: AddOperand,
    rhs: AddOperand,
    sum: AddOperand,
    row: &'a [u64],
) -> Result<CopyRow<'a>, RowRefusal>
    ensures ok { IfOk result (λ r. (r.numbers.now ≡ row.now) × (pair_verdict conditions.now lhs rhs sum row.now ≡ Ok tt)) }
    ensures err { IfErr result (λ why. pair_verdict conditions.now lhs rhs sum row.now ≡ Err why) }
{
    element_row(
        conditions_in_row(conditions) & operands_in_row(lhs, rhs, sum),
        row,
    )
}
