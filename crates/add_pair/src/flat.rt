// Reading a flat operand: first its form, by a walk that never leaves the list, then its terms. Every function here is total: what a list
// does not have reads as 0. Assumes nothing.
ghost use Rattle.std.specs.Prelude.{◌≡◌, Some};
ghost use Rattle.operands.specs.Constructors.{dword};
ghost use Rattle.add_pair.specs.Flat.{after_term, after_terms, after_sum, is_end, sums_form, flat_form};
ghost use Rattle.add_pair.specs.Flat.{signed_of, term_from, term_of, four_terms, operand_of};

use crate::FlatForm;
use lists::slices::number;
use operands::{AddLinearTerm, AddOperand, OperandKind};

// Where the term at index i ends: two numbers on, or three, by its tag.
#[tactic(auto, unfolding(crate::specs::Flat::after_term))]
fn after_term(list: &[u64], i: usize) -> Option<usize>
    ensures { result ≡ after_term list.now (Some i) }
{
    if list.len() <= i {
        return None;
    }
    let tag = list[i];
    if 1 < tag {
        return None;
    }
    let width = 2 + tag as usize;
    if list.len() - i < width {
        return None;
    }
    Some(i + width)
}

// Where the n terms from index `start` on end. The list ends long before a count that is too large for it.
fn after_terms(list: &[u64], start: usize, n: u64) -> Option<usize>
    ensures { result ≡ after_terms list.now (Some start) n }
{
    let mut i = start;
    for _ in 0..n {
        i = after_term(list, i)?;
    }
    Some(i)
}

// Where the sum at index i ends.
#[tactic(auto, unfolding(crate::specs::Flat::after_sum))]
fn after_sum(list: &[u64], i: usize) -> Option<usize>
    ensures { result ≡ after_sum list.now (Some i) }
{
    if list.len() <= i {
        return None;
    }
    after_terms(list, i + 1, list[i])
}

// Whether a place is the end of the list.
#[tactic(auto, unfolding(crate::specs::Flat::is_end))]
fn is_end(list: &[u64], place: Option<usize>) -> bool
    ensures { result ≡ is_end list.now place }
{
    let Some(i) = place else {
        return false;
    };
    i == list.len()
}

// A low sum at index 1, a high sum at index i, and nothing after it.
#[tactic(auto, unfolding(crate::specs::Flat::sums_form, crate::specs::Flat::after_sum, crate::specs::Flat::is_end))]
fn sums_form(list: &[u64], i: usize) -> Option<FlatForm>
    ensures { result ≡ sums_form list.now (Some i) }
{
    if list.len() <= i || !is_end(list, after_sum(list, i)) {
        return None;
    }
    Some(FlatForm::Sums {
        low: number(list, 1),
        high: list[i],
        start: i + 1,
    })
}

// What a list is.
#[tactic(auto, unfolding(crate::specs::Flat::flat_form, crate::specs::Flat::sums_form))]
pub fn flat_form(list: &[u64]) -> Option<FlatForm>
    ensures { result ≡ flat_form list.now }
{
    let tag = number(list, 0);
    if tag == 0 && list.len() == 2 {
        return Some(FlatForm::Words { column: list[1] });
    }
    if tag == 1 {
        return sums_form(list, after_sum(list, 1)?);
    }
    None
}

// The signed number of a two's complement.
#[tactic(auto, unfolding(crate::specs::Flat::signed_of))]
fn signed(bits: u64) -> i64
    ensures { result ≡ signed_of bits }
{
    bits.cast_signed()
}

// The term at index i.
#[tactic(auto, unfolding(crate::specs::Flat::term_from, crate::specs::Flat::signed_of), using(lists::proofs::Numbers::past))]
fn term_from(list: &[u64], i: usize) -> AddLinearTerm
    ensures { result ≡ term_from list.now i }
{
    if list.len() <= i {
        return AddLinearTerm::Constant(0);
    }
    let value = signed(number(list, i + 1));
    if list[i] == 0 {
        return AddLinearTerm::Constant(value);
    }
    AddLinearTerm::Column {
        coefficient: value,
        column: number(list, i + 2) as usize,
    }
}

// Term k of the n terms from index i on; the constant 0 fills the places of terms that a sum does not have.
#[tactic(auto, unfolding(crate::specs::Flat::term_of, crate::specs::Flat::term_after))]
fn term_of(list: &[u64], i: usize, n: u64, k: u64) -> AddLinearTerm
    ensures { result ≡ term_of list.now i n k }
{
    if k < n {
        if let Some(start) = after_terms(list, i, k) {
            return term_from(list, start);
        }
    }
    AddLinearTerm::Constant(0)
}

// The first four of them.
#[tactic(auto, unfolding(crate::specs::Flat::four_terms))]
fn four_terms(list: &[u64], i: usize, n: u64) -> [AddLinearTerm; 4]
    ensures { result ≡ four_terms list.now i n }
{
    [
        term_of(list, i, n, 0),
        term_of(list, i, n, 1),
        term_of(list, i, n, 2),
        term_of(list, i, n, 3),
    ]
}

// Two neighbouring columns: an operand without terms.
#[tactic(auto, unfolding(operands::specs::Constructors::dword, operands::specs::Constructors::cells))]
fn words_operand(column: usize) -> AddOperand
    ensures { result ≡ dword column }
{
    let none = [AddLinearTerm::Constant(0); 4];
    AddOperand {
        kind: OperandKind::Words { column },
        low: none,
        high: none,
    }
}

// The operand of a list, by the list's form.
#[tactic(auto, unfolding(crate::specs::Flat::operand_of))]
pub fn operand_of(list: &[u64], form: FlatForm) -> AddOperand
    ensures { result ≡ operand_of list.now (Some form) }
{
    match form {
        FlatForm::Words { column } => words_operand(column as usize),
        FlatForm::Sums { low, high, start } => AddOperand {
            kind: OperandKind::Sums {
                low: low as usize,
                high: high as usize,
            },
            low: four_terms(list, 2, low),
            high: four_terms(list, start, high),
        },
    }
}
