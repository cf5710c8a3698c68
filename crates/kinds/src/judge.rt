// Internal to the workspace, not open to callers: the lowest bad record of a list, and what every maker answers before it writes a row.
// Assumes nothing but what each `requires` says.
ghost use Rattle.std.specs.Prelude.{◌≡◌, ◌^◌, ◌≤◌};
ghost use Rattle.records.specs.Records.{record_count, first_bad};
ghost use Rattle.kinds.specs.Kinds.{kind_width, good_of_kind};
ghost use Rattle.kinds.specs.Inner.{kind_answer};

use crate::{RecordKind, good_record, width_of};
use records::TableRefusal;
use records::tables::{record_at, record_count, table_answer};

// The lowest of the n records of w numbers that is not good, or n.
pub fn first_bad(kind: RecordKind, list: &[u64], w: usize, n: usize) -> usize
    requires { (w ≡ kind_width kind) × (n ≡ record_count (kind_width kind) list.now) }
    ensures { result ≡ first_bad (kind_width kind) (good_of_kind kind) list.now }
{
    for k in 0..n {
        if !good_record(kind, record_at(list, w, k)) {
            return k;
        }
    }
    n
}

// The answer for a list of records, at most `limit` of them, rows of `v` numbers and a lent table of `room` numbers. A list that is too
// long is not read.
pub fn kind_answer(
    kind: RecordKind,
    limit: usize,
    v: usize,
    list: &[u64],
    room: usize,
) -> Result<usize, TableRefusal>
    requires { (limit ≤ 2 ^ 20) × (v ≤ 64) }
    ensures { result ≡ kind_answer kind limit v list.now room }
{
    let w = width_of(kind);
    let n = record_count(list, w);
    if limit < n {
        return Err(TableRefusal::TooManyRecords);
    }
    let bad = first_bad(kind, list, w, n);
    table_answer(v, n, bad, room)
}
