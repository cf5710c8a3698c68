// Internal to the workspace, not open to callers: from line to line by an index. Assumes nothing but what the `requires` says.
ghost use Rattle.std.specs.Prelude.{◌≡◌, ◌≤◌, ◌<◌, length, drop};
ghost use Rattle.text.specs.Pieces.{after};

use crate::{NEWLINE, position};

// The index after the line that starts at index `at`.
#[tactic(auto, using(crate::proofs::Pieces::next_is, crate::proofs::Pieces::next_none))]
pub fn next_line(text: &[u8], at: usize) -> usize
    requires { at < length text.now }
    ensures { (at < result) × (result ≤ length text.now) × (drop result text.now ≡ after 10 (drop at text.now)) }
{
    let end = position(&text[at..], NEWLINE);
    if end < text.len() - at {
        at + end + 1
    } else {
        text.len()
    }
}
