// Internal to the workspace, not open to callers: the lookups with the limit on the records as a parameter. Routing's own pass judges and
// counts the records, a second one writes the pairs. Assumes nothing but what each `requires` says.
ghost use Rattle.std.specs.Prelude.{◌≡◌, true, ℕ, ◌+◌, ◌*◌, ◌^◌, ◌≤◌, ◌<◌, length};
ghost use Rattle.words.specs.Words.{digits};
ghost use Rattle.records.specs.Records.{record_count, record_at};
ghost use Rattle.access.specs.Access.{ACCESS_WIDTH, good_access};
ghost use Rattle.classify.specs.Classify.{memw_route, table_of};
ghost use Rattle.lookups.specs.Lookups.{PAIR_WIDTH, pair_count, lookup_answer, filled_lookups, lookups_after};
ghost use Rattle.lookups.specs.Inner.{wanted, is_wanted, PairPut};

use access::ACCESS_WIDTH;
use classify::route::classify;
use classify::{AccessRoute, carried};
use lists::slices::put_at;
use records::tables::{record_at, record_count};
use routing::RouteRefusal;
use routing::split::judge;

// Numbers of a pair.
const PAIR_WIDTH: usize = 2;

// Writes the lookups of at most `limit` records.
#[tactic(auto, using(crate::proofs::Answers::refused_keeps))]
pub fn look_up(limit: usize, accesses: &[u64], lookups: &mut [u64]) -> Result<usize, RouteRefusal>
    requires { limit ≤ 2 ^ 20 }
    ensures answer { result ≡ lookup_answer limit accesses.now (length lookups.old) }
    ensures lookups { lookups.new ≡ lookups_after accesses.now result lookups.old }
{
    let pairs = lookup_answer(limit, accesses, lookups.len())?;
    write_pairs(accesses, lookups);
    Ok(pairs)
}

// The answer for a lent buffer of `room` numbers: what routing says of the records, then whether the pairs fit.
#[tactic(auto, using(crate::proofs::Answers::answer_over, crate::proofs::Answers::answer_refused, crate::proofs::Answers::answer_fits, crate::proofs::Answers::answer_short, routing::proofs::Judging::judged_few))]
fn lookup_answer(limit: usize, accesses: &[u64], room: usize) -> Result<usize, RouteRefusal>
    requires { limit ≤ 2 ^ 20 }
    ensures { result ≡ lookup_answer limit accesses.now room }
{
    let n = record_count(accesses, ACCESS_WIDTH);
    if limit < n {
        return Err(RouteRefusal::TooManyRecords);
    }
    let counts = judge(accesses, n)?;
    let pairs = counts.register;
    if PAIR_WIDTH * pairs <= room {
        return Ok(pairs);
    }
    Err(RouteRefusal::BufferShort)
}

// Writes the pair of every register record behind those of the records before it.
fn write_pairs(accesses: &[u64], lookups: &mut [u64])
    requires { (record_count ACCESS_WIDTH accesses.now ≤ 2 ^ 20)
        × ((k : ℕ) → k < record_count ACCESS_WIDTH accesses.now → good_access (record_at ACCESS_WIDTH accesses.now k) ≡ true)
        × (PAIR_WIDTH * pair_count accesses.now ≤ length lookups.old) }
    ensures { lookups.new ≡ filled_lookups accesses.now lookups.old }
{
    let n = record_count(accesses, ACCESS_WIDTH);
    let mut end = 0;
    for k in 0..n {
        let op = record_at(accesses, ACCESS_WIDTH, k);
        end = put_pair(op, end, lookups);
    }
}

// Writes the pair of one record, if it has one, behind the `end` pairs that there are.
#[tactic(auto, using(crate::proofs::Answered::answered_wanted, crate::proofs::Answered::answered_pair))]
fn put_pair(op: &[u64], end: usize, lookups: &mut [u64]) -> usize
    requires { (good_access op.now ≡ true) × (end < 2 ^ 20)
        × (wanted op.now ≡ true → PAIR_WIDTH * end + PAIR_WIDTH ≤ length lookups.old) }
    ensures { PairPut op.now end lookups.old lookups.new result }
{
    let route = classify(op);
    if is_wanted(route) {
        let pair = low_bytes(carried(route));
        put_at(lookups, PAIR_WIDTH * end, &pair);
        return end + 1;
    }
    end
}

// Whether an access of this route has a pair: a row of the register table sends one, and no other.
fn is_wanted(route: AccessRoute) -> bool
    ensures { result ≡ is_wanted (table_of (memw_route route)) }
{
    matches!(route, AccessRoute::Register { .. })
}

// The two lowest bytes of a number, low byte then high byte.
fn low_bytes(x: u64) -> [u64; 2]
    ensures { result ≡ digits 8 2 x }
{
    [x % 256, x / 256 % 256]
}
