// `emit_add_pair` and `add_pair_carry_hi` for callers that have numbers and slices only: operands as flat lists. specs/Flat has the form.
// Assumes nothing.
#![tactic(auto)]

mod flat;

ghost use Rattle.std.specs.Prelude.{◌≡◌, Some, None, MatchResult};
ghost use Rattle.add_pair.specs.Flat.{flat_form};
ghost use Rattle.add_pair.specs.Answers.{operands_answer, pair_numbers_of, out_after, add_pair_refusal_numbers, add_pair_numbers, AddPairDone};
ghost use Rattle.add_pair.specs.declared.AddPairRefusal.TheVariants.{Malformed, Row};

use answer::{Answer, refuse};
use field::rows::RowRefusal;
use flat::{flat_form, operand_of};
use operands::AddOperand;
use operands::judge::pair_row;
use operands::value::pair_values;

// What a flat operand is: two neighbouring columns; or two sums, with their numbers of terms and the index of the first high term.
#[derive(Clone, Copy)]
pub enum FlatForm {
    Words { column: u64 },
    Sums { low: u64, high: u64, start: usize },
}

// Why no numbers are written.
#[derive(Clone, Copy)]
pub enum AddPairRefusal {
    // 10: a list that is no flat operand
    Malformed,
    // 12, 13, 14
    Row { why: RowRefusal },
}

impl From<RowRefusal> for AddPairRefusal {
    ghost from_gives = { λ why refusal. refusal ≡ Row why };

    fn from(why: RowRefusal) -> AddPairRefusal {
        AddPairRefusal::Row { why }
    }
}

// Document 01's number, place and value of a refusal.
impl From<AddPairRefusal> for Answer {
    ghost from_gives = { λ why a. a ≡ add_pair_refusal_numbers why };

    fn from(why: AddPairRefusal) -> Answer {
        match why {
            AddPairRefusal::Malformed => refuse(10, 0),
            AddPairRefusal::Row { why } => why.into(),
        }
    }
}

// The form of a flat list, or 10.
fn form(list: &[u64]) -> Result<FlatForm, AddPairRefusal>
    ensures { MatchResult result (λ form. flat_form list.now ≡ Some form)
        (λ why. (flat_form list.now ≡ None) × (why ≡ Malformed)) }
{
    flat_form(list).ok_or(AddPairRefusal::Malformed)
}

// The two residues and the high carry of lhs + rhs = sum, for operands that were read.
#[tactic(auto, unfolding(crate::specs::Answers::operands_answer, crate::specs::Answers::out_after, crate::specs::Answers::pair_numbers_of))]
fn operands_pair(
    lhs: AddOperand,
    rhs: AddOperand,
    sum: AddOperand,
    conditions: &[u64],
    row: &[u64],
    out: &mut [u64; 3],
) -> Result<(), AddPairRefusal>
    ensures answer { result ≡ operands_answer lhs rhs sum conditions.now row.now }
    ensures out { out.new
        ≡ out_after result (pair_numbers_of lhs rhs sum conditions.now row.now) out.old }
{
    let row = pair_row(conditions, lhs, rhs, sum, row)?;
    let values = pair_values(conditions, lhs, rhs, sum, row);
    *out = [values.low.value, values.high.value, values.carry.value];
    Ok(())
}

// The same for flat operands.
pub fn add_pair(
    lhs: &[u64],
    rhs: &[u64],
    sum: &[u64],
    conditions: &[u64],
    row: &[u64],
    out: &mut [u64; 3],
) -> Result<(), AddPairRefusal>
    ensures { AddPairDone lhs.now rhs.now sum.now conditions.now row.now
        out.old (add_pair_numbers result) out.new }
{
    // no operand is read before all three lists are known to be one
    let lhs_form = form(lhs)?;
    let rhs_form = form(rhs)?;
    let sum_form = form(sum)?;
    operands_pair(
        operand_of(lhs, lhs_form),
        operand_of(rhs, rhs_form),
        operand_of(sum, sum_form),
        conditions,
        row,
        out,
    )
}

// Document 01's number, place and value of an answer.
pub fn numbers(found: Result<(), AddPairRefusal>) -> Answer
    ensures { result ≡ add_pair_numbers found }
{
    answer::numbers(found.map(|()| 0))
}
