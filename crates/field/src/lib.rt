// Field operations open to callers: add, subtract and multiply modulo p = 2^64 - 2^32 + 1, for any two 64-bit numbers. A number not below
// p is refused (document 01's refusal 14, with its index as the place). Assumes nothing.
#![tactic(auto)]

pub mod element;
pub mod rows;

ghost use Rattle.std.specs.Prelude.{◌≡◌, Err, IfOk, IfErr};
ghost use Rattle.answer.specs.Numbers.{refused};
ghost use Rattle.field.specs.Answers.{elements_answer, add_answer, sub_answer, mul_answer, field_numbers};

use answer::{Answer, refuse};
use element::{Element, P};

// Which of the numbers asked about is no element: the lowest such index.
#[derive(Clone, Copy)]
pub struct NotElement {
    pub place: u64,
}

// Document 01's refusal 14.
impl From<NotElement> for Answer {
    ghost from_gives = { λ why a. a ≡ refused 14 why.place };

    fn from(why: NotElement) -> Answer {
        refuse(14, why.place)
    }
}

// Both as elements, or the lowest index of one that is none.
#[tactic(auto, using(crate::proofs::Answers::first_refused, crate::proofs::Answers::second_refused))]
fn both(a: u64, b: u64) -> Result<(Element, Element), NotElement>
    ensures ok { IfOk result (λ r. (r.0.value ≡ a) × (r.1.value ≡ b)) }
    ensures err { IfErr result (λ why. Err why ≡ elements_answer a b) }
{
    if P <= a {
        return Err(NotElement { place: 0 });
    }
    if P <= b {
        return Err(NotElement { place: 1 });
    }
    Ok((Element { value: a }, Element { value: b }))
}

// a + b modulo p.
pub fn field_add(a: u64, b: u64) -> Result<u64, NotElement>
    ensures answer { field_numbers result ≡ field_numbers (add_answer a b) }
{
    let (a, b) = both(a, b)?;
    Ok((a + b).value)
}

// a - b modulo p.
pub fn field_sub(a: u64, b: u64) -> Result<u64, NotElement>
    ensures answer { field_numbers result ≡ field_numbers (sub_answer a b) }
{
    let (a, b) = both(a, b)?;
    Ok((a - b).value)
}

// a * b modulo p.
pub fn field_mul(a: u64, b: u64) -> Result<u64, NotElement>
    ensures answer { field_numbers result ≡ field_numbers (mul_answer a b) }
{
    let (a, b) = both(a, b)?;
    Ok((a * b).value)
}
