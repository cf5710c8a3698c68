// Internal to the workspace, not open to callers: the join with the limit on the calls as a parameter. All refusals come first; what writes
// cannot fail. Assumes nothing but what each `requires` says.
ghost use Rattle.std.specs.Prelude.{◌≡◌, ◌+◌, ◌-◌, ◌*◌, ◌^◌, ◌≤◌, length, drop};
ghost use Rattle.lists.specs.Lists.{store};
ghost use Rattle.records.specs.Records.{record_at};
ghost use Rattle.call.specs.Flat.{HANDED_WIDTH};
ghost use Rattle.call_join.specs.Join.{call_count, stamp_at, first_below, join_answer, filled_joined, joined_after};
ghost use Rattle.call_join.specs.Inner.{WholeCalls};

use crate::JoinRefusal;
use call::HANDED_WIDTH;
use call::flat::stamp_of;
use kinds::RecordKind;
use kinds::judge::first_bad;
use lists::slices::put_at;
use records::tables::{record_at, record_count};

// Joins two lists of at most `limit` calls each.
#[tactic(auto, using(crate::proofs::Answers::refused_keeps))]
pub fn join(
    limit: usize,
    first: &[u64],
    second: &[u64],
    joined: &mut [u64],
) -> Result<usize, JoinRefusal>
    requires { limit ≤ 2 ^ 20 }
    ensures answer { result ≡ join_answer limit first.now second.now (length joined.old) }
    ensures joined { joined.new ≡ joined_after first.now second.now result joined.old }
{
    let calls = join_answer(limit, first, second, joined.len())?;
    write_joined(first, second, joined);
    Ok(calls)
}

// The answer for a lent buffer of `room` numbers: 8, 10 and 20, each of the first list and then of the second, then 9. Lists that are too
// long are not read.
#[tactic(auto, using(crate::proofs::Answers::over_first, crate::proofs::Answers::over_second, crate::proofs::Answers::bad_first, crate::proofs::Answers::bad_second))]
fn join_answer(
    limit: usize,
    first: &[u64],
    second: &[u64],
    room: usize,
) -> Result<usize, JoinRefusal>
    requires { limit ≤ 2 ^ 20 }
    ensures { result ≡ join_answer limit first.now second.now room }
{
    let n = record_count(first, HANDED_WIDTH);
    let m = record_count(second, HANDED_WIDTH);
    let calls = n + m;
    if limit < n {
        return Err(JoinRefusal::TooManyRecords);
    }
    if limit < m {
        return Err(JoinRefusal::TooManyRecords);
    }
    let bad_first = first_bad(RecordKind::Call, first, HANDED_WIDTH, n);
    let bad_second = first_bad(RecordKind::Call, second, HANDED_WIDTH, m);
    let below_first = first_below(first, n);
    let below_second = first_below(second, m);
    if bad_first < n {
        return Err(JoinRefusal::BadRecord { place: bad_first });
    }
    if bad_second < m {
        return Err(JoinRefusal::BadRecord { place: bad_second });
    }
    if below_first < n {
        return Err(JoinRefusal::OutOfOrder { place: below_first });
    }
    if below_second < m {
        return Err(JoinRefusal::OutOfOrder {
            place: below_second,
        });
    }
    if HANDED_WIDTH * calls <= room {
        return Ok(calls);
    }
    Err(JoinRefusal::BufferShort)
}

// The lowest of the n calls that is stamped below the one before it, or where the search ends.
#[tactic(auto, using(lists::proofs::First::first_end), unfolding(crate::specs::Join::first_below))]
fn first_below(calls: &[u64], n: usize) -> usize
    requires { n ≡ call_count calls.now }
    ensures { result ≡ first_below calls.now }
{
    for k in 1..n {
        let before = k - 1;
        if stamp_at(calls, k) < stamp_at(calls, before) {
            return k;
        }
    }
    n.max(1)
}

// The stamp of call `k`, which may be cut.
fn stamp_at(calls: &[u64], k: usize) -> u64
    requires { HANDED_WIDTH * k ≤ length calls.now }
    ensures { result ≡ stamp_at calls.now k }
{
    stamp_of(record_at(calls, HANDED_WIDTH, k))
}

// Writes the joined list. `i` calls of the first list and `j` of the second are written. Where one list is used up, what is left of the
// other stands behind.
fn write_joined(first: &[u64], second: &[u64], joined: &mut [u64])
    requires { WholeCalls first.now × WholeCalls second.now
        × (HANDED_WIDTH * (call_count first.now + call_count second.now) ≤ length joined.old) }
    ensures { joined.new ≡ filled_joined first.now second.now joined.old }
{
    let n = record_count(first, HANDED_WIDTH);
    let m = record_count(second, HANDED_WIDTH);
    let mut i = 0;
    let mut j = 0;
    while (i < n) & (j < m) {
        if whole_stamp(first, i) <= whole_stamp(second, j) {
            put_call(first, i, i + j, joined);
            i += 1;
            continue;
        }
        put_call(second, j, i + j, joined);
        j += 1;
    }
    put_rest(first, i, i + j, joined);
    put_rest(second, j, n + j, joined);
}

// The stamp of call `k`, which is whole: no length has to be asked for.
#[tactic(auto, using(records::proofs::Records::record_part))]
fn whole_stamp(calls: &[u64], k: usize) -> u64
    requires { HANDED_WIDTH * k + HANDED_WIDTH ≤ length calls.now }
    ensures { result ≡ stamp_at calls.now k }
{
    let start = HANDED_WIDTH * k;
    stamp_of(&calls[start..start + HANDED_WIDTH])
}

// Writes call `k` of a list behind the `end` calls that are written.
#[tactic(auto, using(records::proofs::Records::record_part))]
fn put_call(calls: &[u64], k: usize, end: usize, joined: &mut [u64])
    requires { (HANDED_WIDTH * k + HANDED_WIDTH ≤ length calls.now) × (HANDED_WIDTH * end + HANDED_WIDTH ≤ length joined.old) }
    ensures { joined.new ≡ store joined.old (HANDED_WIDTH * end) (record_at HANDED_WIDTH calls.now k) }
{
    let start = HANDED_WIDTH * k;
    put_at(
        joined,
        HANDED_WIDTH * end,
        &calls[start..start + HANDED_WIDTH],
    );
}

// Writes the calls of a list from call `k` on behind the `end` calls that are written.
fn put_rest(calls: &[u64], k: usize, end: usize, joined: &mut [u64])
    requires { (HANDED_WIDTH * k ≤ length calls.now)
        × (HANDED_WIDTH * end + (length calls.now - HANDED_WIDTH * k) ≤ length joined.old) }
    ensures { joined.new ≡ store joined.old (HANDED_WIDTH * end) (drop (HANDED_WIDTH * k) calls.now) }
{
    put_at(joined, HANDED_WIDTH * end, &calls[HANDED_WIDTH * k..]);
}
