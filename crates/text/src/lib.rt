// The text that `callcheck` reads: pieces of a line, decimal numbers, the gap line and the call lines. Document 01: "A program
// `callcheck` reads a line `gap`, tab, number, then call lines, tab-parted". Every reader takes any bytes. What it prints stands in `print`.
// Assumes nothing.
#![tactic(auto)]

pub mod print;
pub mod walk;

ghost use Rattle.std.specs.Prelude.{◌≡◌, ◌≤◌, length};
ghost use Rattle.text.specs.Pieces.{index_of, before, after};
ghost use Rattle.text.specs.Numbers.{number_of};
ghost use Rattle.text.specs.Inner.{digit_of};
ghost use Rattle.text.specs.Lines.{word_of, gap_of, call_line};

use call::Functionality;

pub const TAB: u8 = 9;

pub const NEWLINE: u8 = 10;

// What a call line says.
#[derive(Clone, Copy)]
pub struct CallLine {
    pub kind: Functionality,
    pub stamp: u64,
    pub src: u64,
    pub dst: u64,
    pub count: u64,
}

// The index of the first `b`, or the length.
pub fn position(text: &[u8], b: u8) -> usize
    ensures value { result ≡ index_of b text.now }
    ensures upper_bound { result ≤ length text.now }
{
    text.iter().position(|&x| x == b).unwrap_or(text.len())
}

// What stands before the first `b`.
#[tactic(auto, unfolding(crate::specs::Pieces::before))]
pub fn head(text: &[u8], b: u8) -> &[u8]
    ensures { result.now ≡ before b text.now }
{
    &text[..position(text, b)]
}

// What stands after the first `b`, nothing where there is none.
#[tactic(auto, unfolding(crate::specs::Pieces::after))]
pub fn tail(text: &[u8], b: u8) -> &[u8]
    ensures { result.now ≡ after b text.now }
{
    let end = position(text, b);
    if end < text.len() {
        &text[end + 1..]
    } else {
        &[]
    }
}

// The number with one digit more, if `b` is a digit and the number stays below 2^64.
#[tactic(auto, using(crate::proofs::Numbers::one_digit))]
fn push_digit(value: u64, b: u8) -> Option<u64>
    ensures { result ≡ digit_of value b }
{
    if b < 48 {
        return None;
    }
    if 57 < b {
        return None;
    }
    let digit = u64::from(b) - 48;
    value.checked_mul(10)?.checked_add(digit)
}

// The number that the whole text is. Document 01: "A number is 1 to 20 digits, at most 2^64 − 1".
#[tactic(auto, using(crate::proofs::Numbers::all_turns))]
pub fn parse_number(text: &[u8]) -> Option<u64>
    ensures { result ≡ number_of text.now }
{
    if text.is_empty() {
        return None;
    }
    if 20 < text.len() {
        return None;
    }
    let mut value = 0;
    for &b in text {
        value = push_digit(value, b)?;
    }
    Some(value)
}

// The kind that a word names.
#[tactic(auto, using(crate::proofs::Pieces::same_pointwise), unfolding(crate::specs::Lines::word_of))]
pub fn parse_word(word: &[u8]) -> Option<Functionality>
    ensures { result ≡ word_of word.now }
{
    if word == b"copy".as_slice() {
        Some(Functionality::Copy)
    } else if word == b"set".as_slice() {
        Some(Functionality::Set)
    } else if word == b"write".as_slice() {
        Some(Functionality::Write)
    } else {
        None
    }
}

// Line 1: `gap`, tab, number.
#[tactic(auto, using(crate::proofs::Pieces::same_pointwise), unfolding(crate::specs::Lines::gap_of))]
pub fn parse_gap(line: &[u8]) -> Option<u64>
    ensures { result ≡ gap_of line.now }
{
    if head(line, TAB) == b"gap".as_slice() {
        parse_number(tail(line, TAB))
    } else {
        None
    }
}

// A call line: "`copy`, `set` or `write`, stamp, src, dst, count". The last field is all that follows the fourth tab. A line of another form
// is none.
#[tactic(auto, unfolding(crate::specs::Lines::call_line))]
pub fn parse_call(line: &[u8]) -> Option<CallLine>
    ensures { result ≡ call_line line.now }
{
    let kind = parse_word(head(line, TAB))?;
    let from_stamp = tail(line, TAB);
    let stamp = parse_number(head(from_stamp, TAB))?;
    let from_src = tail(from_stamp, TAB);
    let src = parse_number(head(from_src, TAB))?;
    let from_dst = tail(from_src, TAB);
    let dst = parse_number(head(from_dst, TAB))?;
    let count = parse_number(tail(from_dst, TAB))?;
    Some(CallLine {
        kind,
        stamp,
        src,
        dst,
        count,
    })
}
