// One access of a register, by its six inputs: its route and its record in the route's list. Document 01: `push_reg_access`.
// Assumes nothing.
#![tactic(auto)]

ghost use Rattle.std.specs.Prelude.{◌≡◌, ◌++◌, ◌-◌, replicate};
ghost use Rattle.answer.specs.Numbers.{refused};
ghost use Rattle.access.specs.Access.{ACCESS_WIDTH, access_record};
ghost use Rattle.access.specs.RegisterAccess.{register_access};
ghost use Rattle.access.specs.Tables.{REGISTER_WIDTH};
ghost use Rattle.classify.specs.Classify.{delta_less_one, carrying};
ghost use Rattle.classify.specs.TableRecord.{register_record};
ghost use Rattle.reg_access.specs.RegAccess.{built, route_of, with_zeros, pushed, push_numbers};

use access::{AccessTable, register_access};
use answer::{Answer, refuse};
use classify::route::{address_fits, delta_less_one, reg_ts_delta_in_range};
use classify::{AccessNumbers, AccessRoute};

// Document 01's refusal 11: the route leads to the register table, where the address has no place.
#[derive(Clone, Copy)]
pub struct BadAddress;

impl From<BadAddress> for Answer {
    ghost from_gives = { λ _ a. a ≡ refused 11 0 };

    fn from(_why: BadAddress) -> Answer {
        refuse(11, 0)
    }
}

// Document 01's number, place and value of an answer, and the number that its route carries.
pub fn numbers(found: Result<AccessRoute, BadAddress>) -> AccessNumbers
    ensures { result ≡ push_numbers found }
{
    classify::numbers(found)
}

// The route, and the record as the route's list has it: 8 numbers and zeros for the register table, else 29; zeros if refused.
#[derive(Clone, Copy)]
pub struct RegAccess {
    pub answer: Result<AccessRoute, BadAddress>,
    pub written: [u64; 29],
}

// Routes the access of the register at `reg_addr`, which is twice its number: `val` and `old` are the two words of the new and of the old
// value, which was written at `old_timestamp`.
pub fn push_reg_access(
    reg_addr: u64,
    val: [u32; 2],
    old: [u32; 2],
    timestamp: u64,
    old_timestamp: u64,
    is_read: bool,
) -> RegAccess
    ensures answer { push_numbers result.answer ≡ push_numbers (pushed (built reg_addr val old timestamp old_timestamp is_read)).answer }
    ensures written { result.written ≡ (pushed (built reg_addr val old timestamp old_timestamp is_read)).written }
{
    let route = route_of(reg_addr, timestamp, old_timestamp);
    let t = AccessTable::from(route);
    if address_fits(t, reg_addr) {
        let record = written(t, reg_addr, val, old, timestamp, old_timestamp, is_read);
        return RegAccess {
            answer: Ok(route),
            written: record,
        };
    }
    RegAccess {
        answer: Err(BadAddress),
        written: [0u64; 29],
    }
}

// The route of an access whose two words were written together.
fn route_of(reg_addr: u64, timestamp: u64, old_timestamp: u64) -> AccessRoute
    ensures { result ≡ carrying (route_of reg_addr timestamp old_timestamp) (delta_less_one timestamp old_timestamp) }
{
    if reg_ts_delta_in_range(timestamp, old_timestamp) {
        let less_one = delta_less_one(timestamp, old_timestamp);
        return AccessRoute::Register {
            delta_less_one: less_one,
        };
    }
    if reg_addr % 4294967296 % 2 == 0 {
        return AccessRoute::Aligned;
    }
    AccessRoute::General
}

// The record in the table's list.
#[tactic(auto, unfolding(crate::specs::RegAccess::built))]
fn written(
    t: AccessTable,
    reg_addr: u64,
    val: [u32; 2],
    old: [u32; 2],
    timestamp: u64,
    old_timestamp: u64,
    is_read: bool,
) -> [u64; 29]
    ensures { result ≡ with_zeros t (built reg_addr val old timestamp old_timestamp is_read) }
{
    let v = [u64::from(val[0]), u64::from(val[1])];
    let o = [u64::from(old[0]), u64::from(old[1])];
    let read = u64::from(is_read);
    match t {
        AccessTable::General | AccessTable::Aligned => {
            register_access(reg_addr, v, o, timestamp, old_timestamp, read)
        }
        AccessTable::Register => register_row(reg_addr, v, o, timestamp, old_timestamp, read),
    }
}

// The register table's record, and zeros behind it.
fn register_row(
    reg_addr: u64,
    val: [u64; 2],
    old: [u64; 2],
    timestamp: u64,
    old_timestamp: u64,
    is_read: u64,
) -> [u64; 29]
    ensures { result ≡ register_record (access_record (register_access reg_addr val old timestamp old_timestamp is_read))
        ++ replicate (ACCESS_WIDTH - REGISTER_WIDTH) 0 }
{
    [
        reg_addr / 2,
        timestamp,
        val[0],
        val[1],
        old[0],
        old[1],
        old_timestamp % 4294967296,
        is_read,
        0,
        0,
        0,
        0,
        0,
        0,
        0,
        0,
        0,
        0,
        0,
        0,
        0,
        0,
        0,
        0,
        0,
        0,
        0,
        0,
        0,
    ]
}
