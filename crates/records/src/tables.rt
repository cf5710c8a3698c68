// Internal to the workspace, not open to callers: what every maker of a table and every reader of a record list calls. The widths
// and the limit on records are parameters. Assumes nothing but what each `requires` says.
ghost use Rattle.std.specs.Prelude.{◌≡◌, ℕ, ◌+◌, ◌*◌, ◌^◌, ◌≤◌, ◌<◌, length};
ghost use Rattle.records.specs.Records.{record_count, record_at, within};
ghost use Rattle.records.specs.RowCount.{row_count};
ghost use Rattle.records.specs.Table.{table_answer};

use crate::TableRefusal;

// How many records of `w` numbers the list has, a cut last one counted.
pub fn record_count(list: &[u64], w: usize) -> usize
    requires { (0 < w) × (w ≤ 64) }
    ensures { result ≡ record_count w list.now }
{
    (list.len() + (w - 1)) / w
}

// Record `k` of a list of records of `w` numbers; a cut last one is shorter.
pub fn record_at(list: &[u64], w: usize, k: usize) -> &[u64]
    requires { w * k ≤ length list.now }
    ensures { result.now ≡ record_at w list.now k }
{
    let start = w * k;
    if list.len() - start < w {
        return &list[start..];
    }
    &list[start..start + w]
}

// Whether `r` is whole and each of its numbers is at most its limit. Every number is looked at, which asks no branch for each.
#[tactic(auto, using(crate::proofs::Records::any_none, crate::proofs::Records::any_more, crate::proofs::Records::within_cut, crate::proofs::Records::within_any))]
pub fn within_limits(r: &[u64], limits: &[u64]) -> bool
    ensures { result ≡ within limits.now r.now }
{
    if r.len() != limits.len() {
        return false;
    }
    let mut above = false;
    for (i, limit) in limits.iter().enumerate() {
        above = above | (*limit < r[i]);
    }
    !above
}

// The number of rows for `n` records: the "least power of two that is at least the record count", and at least 4. The leading zeros
// of the record count less one give it.
pub fn row_count(n: u64) -> u64
    requires { n ≤ 2 ^ 63 }
    ensures { result ≡ row_count n }
{
    if n <= 4 {
        return 4;
    }
    let zeros = u64::leading_zeros(n - 1);
    1 << (64 - zeros)
}

// The answer for `n` records, no more than any limit allows, of which `bad` is the lowest refused one, rows of `v` numbers and a lent table
// of `room` numbers.
#[tactic(auto, using(crate::proofs::Table::answer_bad, crate::proofs::Table::answer_short, crate::proofs::Table::answer_made))]
pub fn table_answer(v: usize, n: usize, bad: usize, room: usize) -> Result<usize, TableRefusal>
    requires { (n ≤ 2 ^ 20) × (v ≤ 64) }
    ensures { (limit : ℕ) → n ≤ limit → result ≡ table_answer limit v n bad room }
{
    if bad < n {
        return Err(TableRefusal::BadRecord { place: bad });
    }
    let rows = row_count(n as u64) as usize;
    if room < v * rows {
        return Err(TableRefusal::BufferShort);
    }
    Ok(rows)
}
