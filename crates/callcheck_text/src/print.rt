// Internal to the workspace, not open to callers: the verdict on the accepted calls, and the output for all call lines. Assumes nothing but
// what each `requires` says.
ghost use Rattle.std.specs.Prelude.{◌≡◌, ◌+◌, ◌≤◌, [], ◌++◌, length};
ghost use Rattle.expansion.specs.Tries.{under};
ghost use Rattle.text.specs.Lines.{lines};
ghost use Rattle.callcheck_text.specs.Run.{OPS_ROOM, done, lines_from};
ghost use Rattle.callcheck_text.specs.Output.{verdict_of, verdict_text, ending_text, start};

use crate::Refused;
use crate::run::run_lines;
use answer::Answer;
use call::OP_WIDTH;
use chain::chain_check;
use copy_row::cols::NUM_COLUMNS;
use copy_row::generate_copy_trace;
use text::print::Printer;

// The output has at most 32 lines of 178 bytes and the verdict's line.
pub type Output = Printer<8192>;

// What the chain check answers of the table made of these operation records: of just the rows written.
fn verdict(gap: u64, ops: &[u64]) -> Answer
    ensures { result ≡ verdict_of gap ops.now }
{
    let mut table = [0u64; 1312];
    let rows = generate_copy_trace(ops, &mut table).unwrap_or(0);
    answer::numbers(chain_check(gap, &table[..NUM_COLUMNS * rows]))
}

// The verdict's line: `passed` and the row count. A chain check that refuses, which it never does here, has no line of the input: 0.
fn put_verdict(out: &mut Output, verdict: Answer)
    requires { length out.old + 50 ≤ 8192 }
    ensures { out.new ≡ out.old ++ verdict_text verdict }
{
    if verdict.number == 0 {
        out.put_passed(verdict.value);
    } else {
        out.put_refused(verdict.number, 0);
    }
}

// A line for each of these operation records, and the verdict's line.
#[tactic(auto, unfolding(crate::specs::Output::ending_text))]
fn put_done(out: &mut Output, gap: u64, ops: &[u64])
    requires { (out.old ≡ []) × (length ops.now ≤ OPS_ROOM) }
    ensures { out.new ≡ ending_text gap (done ops.now) }
{
    out.put_rows(ops.len() / OP_WIDTH, ops);
    put_verdict(out, verdict(gap, ops));
}

// The output for the call lines of a text. 32 rows have at most 64 accesses, so the access buffer has 64 * 29 numbers and is never what a
// call is refused for.
pub fn put_calls(gap: u64, text: &[u8]) -> Output
    ensures { result ≡ ending_text gap (lines_from (under gap) 2 (lines text.now) start) }
{
    let mut bytes = [0u8; 1024];
    let mut stamps = [0u64; 1024];
    let mut ops = [0u64; 512];
    let mut accesses = [0u64; 1856];
    let mut out = Output::new();
    match run_lines(gap, text, &mut bytes, &mut stamps, &mut ops, &mut accesses) {
        Ok(rows) => put_done(&mut out, gap, &ops[..OP_WIDTH * rows]),
        Err(Refused { number, line }) => out.put_refused(number, line),
    }
    out
}
