// The whole way, open to callers: calls in, table, check, and back. Document 01: "The accepted calls' operation records, joined in the
// list's order, go to the copy table's maker. Where it refuses nothing, the rows written pass under that gap." Assumes nothing.
#![tactic(auto)]

pub mod legs;

ghost use Rattle.std.specs.Prelude.{◌≡◌, true};
ghost use Rattle.round_trip.specs.Trip.{trip_lent, trip_of, round_trip_refusal_numbers, round_trip_numbers, Ended};
ghost use Rattle.round_trip.specs.RoundTrip.{RoundTrip};
ghost use Rattle.round_trip.specs.Instances.{Instances};

use answer::{Answer, refuse};

// What comes of it where nothing is refused: how many rows the table has, and how many operation records and calls came back.
#[derive(Clone, Copy)]
pub struct RoundTripped {
    pub rows: usize,
    pub ops: usize,
    pub calls: usize,
}

// Why nothing comes of it.
#[derive(Clone, Copy)]
pub enum RoundTripRefusal {
    // 8: above 65,536 calls, a cut last one counted, or above 65,536 operation records
    TooManyRecords,
    // 10: the list of calls is not whole calls; the last one is cut
    NotWhole { place: usize },
    // 9: the table, or one of read-back's buffers, is shorter than the result
    BufferShort,
}

// Document 01's number and place of a refusal.
impl From<RoundTripRefusal> for Answer {
    ghost from_gives = { λ why a. a ≡ round_trip_refusal_numbers why };

    fn from(why: RoundTripRefusal) -> Answer {
        match why {
            RoundTripRefusal::TooManyRecords => refuse(8, 0),
            RoundTripRefusal::NotWhole { place } => refuse(10, place as u64),
            RoundTripRefusal::BufferShort => refuse(9, 0),
        }
    }
}

// Expands the calls (five numbers each: kind, stamp, src, dst, count) one by one over the window, passing over those that are refused;
// makes the table of their records; checks the rows written, and only these; and reads them back. The answer is known from lengths and
// counts, before anything is written: a refusal writes nothing, the window included. A gap of 32 bits is never refused (7). The order is 8
// and 10 of the list of calls, which is judged before any call is; 8 and 9 of the maker; 9 of read-back.
pub fn round_trip(
    gap: u32,
    calls: &[u64],
    bytes: &mut [u8],
    stamps: &mut [u64],
    ops: &mut [u64],
    accesses: &mut [u64],
    table: &mut [u64],
    ops_back: &mut [u64],
    calls_back: &mut [u64],
) -> Result<RoundTripped, RoundTripRefusal>
    ensures { Ended
        (trip_of gap calls.now
        (trip_lent bytes.old stamps.old ops.old accesses.old
        table.old ops_back.old calls_back.old))
        (round_trip_numbers result)
        (trip_lent bytes.new stamps.new ops.new accesses.new
        table.new ops_back.new calls_back.new) }
{
    let wide = u64::from(gap);
    let found = legs::foretell(
        wide,
        calls,
        bytes.len(),
        stamps.len(),
        ops.len(),
        accesses.len(),
        table.len(),
        ops_back.len(),
        calls_back.len(),
    )?;
    legs::run(
        wide, found.ops, found.rows, calls, bytes, stamps, ops, accesses, table, ops_back,
        calls_back,
    );
    Ok(found)
}

// That what comes back is what went in is its contract, with instances of what it speaks of.
#[tactic(auto, using(crate::proofs::RoundTrip::round_trip, crate::proofs::Instances::instances))]
pub fn round_trip_holds() -> bool
    ensures { (result ≡ true) × RoundTrip × Instances }
{
    true
}
