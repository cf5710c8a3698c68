// Internal to the workspace, not open to callers: the entries judged before any byte is asked about. Assumes nothing but what each
// `requires` says.
ghost use Rattle.std.specs.Prelude.{◌≡◌};
ghost use Rattle.rights.specs.Entries.{entry_count, first_bad_entry, past_window};
ghost use Rattle.rights.specs.Inner.{claim_answer};

use crate::ClaimRefusal;
use call::{ENTRY_WIDTH, LAST_PARTY, good_entry};
use lists::slices::number;
use records::tables::{record_at, record_count};
use words::past;

// Where the numbers stand in an entry.
pub const PARTY: usize = 0;

pub const START: usize = 1;

pub const LENGTH: usize = 2;

pub const MAY_READ: usize = 3;

pub const MAY_WRITE: usize = 4;

// How many entries there may be, a cut one counted.
const MOST_ENTRIES: usize = 16;

// Whether a whole entry ends above a window of so many cells. A cut one is not looked at.
fn past_window(entries: &[u64], cells: u64) -> bool
    ensures { result ≡ past_window entries.now cells }
{
    let n = entries.len() / ENTRY_WIDTH;
    for k in 0..n {
        let entry = record_at(entries, ENTRY_WIDTH, k);
        if past(cells, number(entry, START), number(entry, LENGTH)) {
            return true;
        }
    }
    false
}

// The lowest of the `n` entries that is cut or has a field outside its values, or `n`.
fn first_bad_entry(entries: &[u64], n: usize) -> usize
    requires { n ≡ entry_count entries.now }
    ensures { result ≡ first_bad_entry entries.now }
{
    for k in 0..n {
        if !good_entry(record_at(entries, ENTRY_WIDTH, k)) {
            return k;
        }
    }
    n
}

// The answer for a party and the entries over a window of so many cells: 21, then 10.
pub fn claim_answer(party: u64, entries: &[u64], cells: u64) -> Result<(), ClaimRefusal>
    ensures { result ≡ claim_answer party entries.now cells }
{
    let n = record_count(entries, ENTRY_WIDTH);
    if MOST_ENTRIES < n {
        return Err(ClaimRefusal::BadEntries);
    }
    if past_window(entries, cells) {
        return Err(ClaimRefusal::BadEntries);
    }
    if LAST_PARTY < party {
        return Err(ClaimRefusal::BadField { place: 0 });
    }
    let bad = first_bad_entry(entries, n);
    if bad < n {
        return Err(ClaimRefusal::BadField { place: bad });
    }
    Ok(())
}
