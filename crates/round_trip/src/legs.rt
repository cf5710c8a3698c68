// Internal to the workspace, not open to callers: the answer by lengths, and the way itself once nothing will be refused. Assumes nothing
// but what each `requires` says.
ghost use Rattle.std.specs.Prelude.{◌≡◌, ◌*◌, ◌^◌, ◌<◌};
ghost use Rattle.call.specs.Flat.{CALL_WIDTH};
ghost use Rattle.expansion.specs.Tries.{lengths_are};
ghost use Rattle.round_trip.specs.Trip.{trip_lent, trip_of, trip_run};
ghost use Rattle.round_trip.specs.Inner.{decided, foretold, Tabled};

use crate::{RoundTripRefusal, RoundTripped};
use call::{CALL_WIDTH, HANDED_WIDTH, OP_WIDTH};
use calls_in_turn::ahead::count;
use calls_in_turn::turns::expand_all;
use copy_row::cols::NUM_COLUMNS;
use copy_row::generate_copy_trace;
use read_back::read_back;
use records::LIMIT;
use records::tables::{record_count, row_count};

// The answer for `n` records and `m` calls: 8 and 9 of the maker, and 9 of read-back.
#[tactic(auto, unfolding(crate::specs::Inner::decided))]
fn decide(
    n: usize,
    m: usize,
    table_room: usize,
    ops_room: usize,
    calls_room: usize,
) -> Result<RoundTripped, RoundTripRefusal>
    requires { CALL_WIDTH * m < 2 ^ 64 }
    ensures { result ≡ decided n m table_room ops_room calls_room }
{
    if LIMIT < n {
        return Err(RoundTripRefusal::TooManyRecords);
    }
    let rows = row_count(n as u64) as usize;
    if table_room < NUM_COLUMNS * rows {
        return Err(RoundTripRefusal::BufferShort);
    }
    if (ops_room < OP_WIDTH * n) | (calls_room < CALL_WIDTH * m) {
        return Err(RoundTripRefusal::BufferShort);
    }
    Ok(RoundTripped {
        rows,
        ops: n,
        calls: m,
    })
}

// The answer, before anything is written: 8 and 10 of the list of calls, then what the counts of the accepted ones say.
#[tactic(auto, unfolding(crate::specs::Inner::foretold))]
pub fn foretell(
    gap: u64,
    calls: &[u64],
    cells: usize,
    stamped: usize,
    room: usize,
    space: usize,
    table_room: usize,
    ops_room: usize,
    calls_room: usize,
) -> Result<RoundTripped, RoundTripRefusal>
    ensures { result
        ≡ foretold gap calls.now (lengths_are cells stamped room space) table_room ops_room calls_room }
{
    if LIMIT < record_count(calls, HANDED_WIDTH) {
        return Err(RoundTripRefusal::TooManyRecords);
    }
    if 0 < calls.len() % HANDED_WIDTH {
        return Err(RoundTripRefusal::NotWhole {
            place: calls.len() / HANDED_WIDTH,
        });
    }
    let found = count(gap, calls, cells, stamped, room, space);
    decide(found.ops, found.calls, table_room, ops_room, calls_room)
}

// Expands the calls, makes the table of the `n` records, checks its `rows` rows and reads them back. The maker's and read-back's answers
// are not looked at: `foretell` has told them.
pub fn run(
    gap: u64,
    n: usize,
    rows: usize,
    calls: &[u64],
    bytes: &mut [u8],
    stamps: &mut [u64],
    ops: &mut [u64],
    accesses: &mut [u64],
    table: &mut [u64],
    ops_back: &mut [u64],
    calls_back: &mut [u64],
)
    requires { Tabled
        (trip_of gap calls.now
        (trip_lent bytes.old stamps.old ops.old accesses.old table.old ops_back.old calls_back.old))
        n rows }
    ensures { trip_lent bytes.new stamps.new ops.new accesses.new
        table.new ops_back.new calls_back.new
        ≡ trip_run
        (trip_of gap calls.now
        (trip_lent bytes.old stamps.old ops.old accesses.old
        table.old ops_back.old calls_back.old))
        rows }
{
    expand_all(gap, calls, bytes, stamps, ops, accesses);
    let _ = generate_copy_trace(&ops[0..OP_WIDTH * n], table);
    let _ = read_back(gap, &table[0..NUM_COLUMNS * rows], ops_back, calls_back);
}
