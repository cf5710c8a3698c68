// Internal to the workspace, not open to callers: whether entries give a party a right for each byte of a range. Entries may overlap and
// touch, and neighbouring bytes may lie in different ones: the walk goes from a byte to the end of an entry that gives it, so each entry
// is used once at most, however long the range. Assumes nothing but what each `requires` says.
ghost use Rattle.std.specs.Prelude.{◌≡◌, ◌^◌, ◌<◌};
ghost use Rattle.call.specs.Inner.{call_of};
ghost use Rattle.rights.specs.Entries.{whole_entries, end_of};
ghost use Rattle.rights.specs.Rights.{gives, giver, covered, lacks_right};
ghost use Rattle.rights.specs.Inner.{EndsFit};

use crate::entries::{LENGTH, MAY_READ, MAY_WRITE, PARTY, START};
use call::{CopyCall, ENTRY_WIDTH};
use lists::slices::number;
use records::tables::record_at;

// Whether an entry gives the party the right, named by its place in an entry, for byte `x`.
fn gives(entry: &[u64], party: u64, right: usize, x: u64) -> bool
    ensures { result ≡ gives party right x entry.now }
{
    let owner = number(entry, PARTY);
    if owner != party {
        return false;
    }
    if number(entry, right) != 1 {
        return false;
    }
    let start = number(entry, START);
    if x < start {
        return false;
    }
    x - start < number(entry, LENGTH)
}

// The lowest of the `n` whole entries that does, or `n`.
fn giver(entries: &[u64], n: usize, party: u64, right: usize, x: u64) -> usize
    requires { n ≡ whole_entries entries.now }
    ensures { result ≡ giver entries.now party right x }
{
    for k in 0..n {
        if gives(record_at(entries, ENTRY_WIDTH, k), party, right, x) {
            return k;
        }
    }
    n
}

// Where an entry ends: a plain sum.
fn end_of(entry: &[u64]) -> u64
    requires { end_of entry.now < 2 ^ 64 }
    ensures { result ≡ end_of entry.now }
{
    number(entry, START) + number(entry, LENGTH)
}

// Whether the party has the right for each of the `count` bytes from `start` on.
fn covers(entries: &[u64], party: u64, right: usize, start: u64, count: u64) -> bool
    requires { EndsFit entries.now }
    ensures { result ≡ covered entries.now party right start count }
{
    let n = entries.len() / ENTRY_WIDTH;
    let mut at = start;
    let mut left = count;
    while 0 < left {
        let k = giver(entries, n, party, right, at);
        if n <= k {
            return false;
        }
        let end = end_of(record_at(entries, ENTRY_WIDTH, k));
        if left <= end - at {
            return true;
        }
        left -= end - at;
        at = end;
    }
    true
}

// 22: whether a byte of the call lacks its right. Every kind reads its source; a Write's destination is an index, and no byte.
pub fn lacks_right(call: CopyCall, party: u64, entries: &[u64]) -> bool
    requires { EndsFit entries.now }
    ensures { result ≡ lacks_right (call_of call) party entries.now }
{
    if !covers(entries, party, MAY_READ, call.src, call.count) {
        return true;
    }
    if call.kind == 2 {
        return false;
    }
    !covers(entries, party, MAY_WRITE, call.dst, call.count)
}
