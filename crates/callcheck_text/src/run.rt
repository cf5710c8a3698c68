// Internal to the workspace, not open to callers: one call line, and all of them in turn. Assumes nothing but what each `requires` says.
ghost use Rattle.std.specs.Prelude.{◌≡◌, ◌≤◌, length};
ghost use Rattle.expansion.specs.Tries.{under, lent};
ghost use Rattle.text.specs.Lines.{call_line, lines};
ghost use Rattle.callcheck_text.specs.Inner.{line_step, line_after};
ghost use Rattle.callcheck_text.specs.Run.{ROWS, OPS_ROOM, ACCESSES_ROOM, lines_from};
ghost use Rattle.callcheck_text.specs.Inner.{ending_of, rows_done};

use crate::Refused;
use call::OP_WIDTH;
use expansion::{collect_copy_ops, numbers};
use text::walk::next_line;
use text::{NEWLINE, head, parse_call};

// The line numbered `line`: its call is expanded over the window and into the two buffers. The answer is how many rows it has.
fn run_line(
    gap: u64,
    line: u64,
    text: &[u8],
    bytes: &mut [u8],
    stamps: &mut [u64],
    ops: &mut [u64],
    accesses: &mut [u64],
) -> Result<usize, Refused>
    ensures step { result
        ≡ line_step (under gap) line (call_line text.now) (lent bytes.old stamps.old ops.old accesses.old) }
    ensures slices { lent bytes.new stamps.new ops.new accesses.new
        ≡ line_after (under gap) (call_line text.now) (lent bytes.old stamps.old ops.old accesses.old) }
{
    let Some(call) = parse_call(text) else {
        return Err(Refused { number: 10, line });
    };
    let found = collect_copy_ops(
        call.kind, call.stamp, call.src, call.dst, call.count, gap, bytes, stamps, ops, accesses,
    );
    // Document 01: "A refusal of the expansion is passed up unchanged".
    let Ok(expanded) = found else {
        return Err(Refused {
            number: numbers(found).number,
            line,
        });
    };
    Ok(expanded.ops)
}

// The call lines of a text in turn, numbered from 2 on. Each finds the window as the call before left it, and the part of `ops` that is
// still free: a call that takes the live rows past 32 meets the expansion's own 9.
pub fn run_lines(
    gap: u64,
    text: &[u8],
    bytes: &mut [u8],
    stamps: &mut [u64],
    ops: &mut [u64],
    accesses: &mut [u64],
) -> Result<usize, Refused>
    requires { (length ops.old ≡ OPS_ROOM) × (length accesses.old ≡ ACCESSES_ROOM) }
    ensures rows { rows_done result ≤ ROWS }
    ensures ending { ending_of result ops.new
        ≡ lines_from (under gap) 2 (lines text.now) (lent bytes.old stamps.old ops.old accesses.old) }
{
    let mut at = 0;
    let mut line = 2;
    let mut rows = 0;
    while at < text.len() {
        let first = head(&text[at..], NEWLINE);
        let free = &mut ops[OP_WIDTH * rows..];
        rows += run_line(gap, line, first, bytes, stamps, free, accesses)?;
        line += 1;
        at = next_line(text, at);
    }
    Ok(rows)
}
