// `collect_copy_ops` for callers that have numbers and slices only: the kind as a number, and both counts in an array. Assumes nothing.
ghost use Rattle.expansion.specs.Tries.{lent, try_of};
ghost use Rattle.exports.specs.FlatExpansion.{FlatDone};

use answer::{Answer, accept, refuse};
use call::{kind_of, no_kind};

// Expands a call over a window, or 10 for a kind above 2, then 7, 8, 1, 3, 5, 2 and 9.
pub fn collect_copy_ops(
    kind: u64,
    timestamp: u64,
    src: u64,
    dst: u64,
    count: u64,
    gap: u64,
    bytes: &mut [u8],
    stamps: &mut [u64],
    ops: &mut [u64],
    accesses: &mut [u64],
    counts: &mut [u64; 2],
) -> Answer
    ensures { FlatDone gap (try_of (record { kind = kind; stamp = timestamp; src = src; dst = dst; count = count })
        (lent bytes.old stamps.old ops.old accesses.old)) counts.old result
        (lent bytes.new stamps.new ops.new accesses.new) counts.new }
{
    if no_kind(kind) {
        return refuse(10, 0);
    }
    let found = expansion::collect_copy_ops(
        kind_of(kind),
        timestamp,
        src,
        dst,
        count,
        gap,
        bytes,
        stamps,
        ops,
        accesses,
    );
    match found {
        Ok(expanded) => {
            *counts = [expanded.ops as u64, expanded.accesses as u64];
            accept(expanded.ops as u64)
        }
        Err(why) => why.into(),
    }
}
