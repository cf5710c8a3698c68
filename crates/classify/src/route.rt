// Internal to the workspace, not open to callers: the route of a good access record, the table that it leads to and its record in that
// table's list, for the entry of this crate, routing, the lookups and `push_reg_access`. Assumes nothing but what each `requires` says.
ghost use Rattle.std.specs.Prelude.{◌≡◌, true, ◌%◌, length};
ghost use Rattle.lists.specs.Lists.{at};
ghost use Rattle.access.specs.Access.{WIDTH, ACCESS_WIDTH, is_width, good_access};
ghost use Rattle.classify.specs.Classify.{delta_in_range, delta_less_one, is_register_op, stamps_agree, is_aligned_op};
ghost use Rattle.classify.specs.Classify.{access_route, memw_route, table_of};
ghost use Rattle.classify.specs.TableRecord.{register_record, address_fits};

use crate::AccessRoute;
use access::{
    AccessTable, BASE_ADDRESS, IS_READ, IS_REGISTER, OLD, OLD_TIMESTAMP, TIMESTAMP, VALUE, WIDTH,
};

// The route of an access. Register is decided first, then aligned; the rest is general.
#[tactic(auto, using(access::proofs::Good::good_length, crate::proofs::Stamps::register_delta), unfolding(crate::specs::Classify::classify))]
pub fn classify(op: &[u64]) -> AccessRoute
    requires { good_access op.now ≡ true }
    ensures { result ≡ access_route op.now }
{
    if is_register_op(op) {
        let less_one = delta_less_one(op[TIMESTAMP], op[OLD_TIMESTAMP]);
        return AccessRoute::Register {
            delta_less_one: less_one,
        };
    }
    if is_aligned_op(op) {
        return AccessRoute::Aligned;
    }
    AccessRoute::General
}

// A two-word register access whose words were written together, not long ago. Here and in the tests below nothing branches: which way an
// access goes is not for a processor to guess.
#[tactic(auto, unfolding(crate::specs::Classify::is_register_op))]
pub fn is_register_op(op: &[u64]) -> bool
    requires { length op.now ≡ ACCESS_WIDTH }
    ensures { result ≡ is_register_op op.now }
{
    (op[IS_REGISTER] == 1)
        & ((op[WIDTH] == 2)
            & ((op[OLD_TIMESTAMP] == op[OLD_TIMESTAMP + 1])
                & reg_ts_delta_in_range(op[TIMESTAMP], op[OLD_TIMESTAMP])))
}

// High words equal, and the low word 1 to 65,536 above the old one: what one half holds.
#[tactic(auto, using(crate::proofs::Stamps::difference_in_range, words::proofs::Digits::high_shifted), unfolding(crate::specs::Classify::delta_in_range))]
pub fn reg_ts_delta_in_range(timestamp: u64, old_ts: u64) -> bool
    ensures { result ≡ delta_in_range timestamp old_ts }
{
    let ts_lo = timestamp % 4294967296;
    let old_ts_lo = old_ts % 4294967296;
    (timestamp >> 32 == old_ts >> 32) & ((old_ts_lo < ts_lo) & (ts_lo <= old_ts_lo + 65536))
}

// The low stamp difference less one, of stamps in range: what the register table's row sends to the half-word lookup,
// `IS_HALFWORD[timestamp_0 - old_timestamp_lo - 1]` in trace_builder.rs.
#[tactic(auto, using(crate::proofs::Stamps::delta_bounds))]
pub fn delta_less_one(timestamp: u64, old_ts: u64) -> u64
    requires { delta_in_range timestamp old_ts ≡ true }
    ensures { result ≡ delta_less_one timestamp old_ts }
{
    timestamp % 4294967296 - old_ts % 4294967296 - 1
}

// An address that is a multiple of the width, and cells that were written together.
#[tactic(auto, using(access::proofs::Good::good_length, access::proofs::Good::good_width), unfolding(crate::specs::Classify::is_aligned_op))]
pub fn is_aligned_op(op: &[u64]) -> bool
    requires { good_access op.now ≡ true }
    ensures { result ≡ is_aligned_op op.now }
{
    let past = past_multiple(op[BASE_ADDRESS] % 4294967296, op[WIDTH]);
    (past == 0) & stamps_agree(op)
}

// How far `low` is past a multiple of the width: a width is a power of two, so no division is left.
fn past_multiple(low: u64, width: u64) -> u64
    requires { is_width width ≡ true }
    ensures { result ≡ low % width }
{
    low & (width - 1)
}

// Whether the first `width` old stamps agree. All eight are looked at; those that the width leaves out may differ.
#[tactic(auto, using(crate::proofs::Stamps::stamps_agreeing))]
fn stamps_agree(op: &[u64]) -> bool
    requires { (length op.now ≡ ACCESS_WIDTH) × (is_width (at op.now WIDTH) ≡ true) }
    ensures { result ≡ stamps_agree op.now }
{
    let width = op[WIDTH];
    let stamp = op[OLD_TIMESTAMP];
    let two = op[OLD_TIMESTAMP + 1] == stamp;
    let four = (op[OLD_TIMESTAMP + 2] == stamp) & (op[OLD_TIMESTAMP + 3] == stamp);
    let eight = (op[OLD_TIMESTAMP + 4] == stamp)
        & ((op[OLD_TIMESTAMP + 5] == stamp)
            & ((op[OLD_TIMESTAMP + 6] == stamp) & (op[OLD_TIMESTAMP + 7] == stamp)));
    ((width < 2) | two) & (((width < 4) | four) & ((width < 8) | eight))
}

// The table that a route leads to.
impl From<AccessRoute> for AccessTable {
    ghost from_gives = { λ route t. t ≡ table_of (memw_route route) };

    fn from(route: AccessRoute) -> AccessTable {
        match route {
            AccessRoute::Register { .. } => AccessTable::Register,
            AccessRoute::Aligned => AccessTable::Aligned,
            AccessRoute::General => AccessTable::General,
        }
    }
}

// Whether an access at this address has a place in the table.
pub fn address_fits(t: AccessTable, address: u64) -> bool
    ensures { result ≡ address_fits t address }
{
    match t {
        AccessTable::General | AccessTable::Aligned => true,
        AccessTable::Register => (address % 2 == 0) & (address / 2 <= 65535),
    }
}

// The register table's record of an access.
pub fn register_record(op: &[u64]) -> [u64; 8]
    requires { length op.now ≡ ACCESS_WIDTH }
    ensures { result ≡ register_record op.now }
{
    [
        op[BASE_ADDRESS] / 2,
        op[TIMESTAMP],
        op[VALUE],
        op[VALUE + 1],
        op[OLD],
        op[OLD + 1],
        op[OLD_TIMESTAMP] % 4294967296,
        op[IS_READ],
    ]
}
