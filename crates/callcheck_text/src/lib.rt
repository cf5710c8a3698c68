// What `callcheck` prints for an input of any bytes and any length. Document 01: "A program `callcheck` reads a line `gap`, tab, number,
// then call lines". Assumes nothing.
#![tactic(auto)]

pub mod print;
pub mod run;

ghost use Rattle.std.specs.Prelude.{◌≡◌, true, ◌≤◌, length};
ghost use Rattle.lists.specs.Lists.{store};
ghost use Rattle.callcheck_text.specs.Run.{NineIsRows};
ghost use Rattle.callcheck_text.specs.Output.{output_of, PrefixDecides, VerdictPasses, LiveRowsPrinted};
ghost use Rattle.callcheck_text.specs.Examples.{Examples};

use print::{Output, put_calls};
use text::{NEWLINE, head, parse_gap, tail};

// The lowest line that is refused, and the number that refuses it.
#[derive(Clone, Copy)]
pub struct Refused {
    pub number: u64,
    pub line: u64,
}

// The whole output stands at the front of `out`, which is long enough for any; answers how many bytes it has.
pub fn answer(input: &[u8], out: &mut [u8; 8192]) -> usize
    ensures answer { (result ≡ length (output_of input.now)) × (result ≤ 8192) }
    ensures out { out.new ≡ store out.old 0 (output_of input.now) }
{
    let mut output = Output::new();
    match parse_gap(head(input, NEWLINE)) {
        None => output.put_refused(10, 1),
        Some(gap) if 0x1_0000_0000 <= gap => output.put_refused(7, 1),
        Some(gap) => output = put_calls(gap, tail(input, NEWLINE)),
    }
    let text = output.text();
    out[..text.len()].copy_from_slice(text);
    text.len()
}

// What follows from the definition of the output is its contract: the first bytes decide, the verdict of accepted calls is `passed`, the
// row lines are those of the live rows of the table made, 9 is for rows past 32, and inputs with their outputs.
pub fn output_laws_hold() -> bool
    ensures { (result ≡ true) × PrefixDecides × VerdictPasses × LiveRowsPrinted × NineIsRows × Examples }
{
    true
}
