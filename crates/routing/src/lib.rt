// A list of access records routed into three lists, for the general, the aligned and the register table. Every list has an answer.
// Assumes nothing.
#![tactic(auto)]

pub mod split;

ghost use Rattle.std.specs.Prelude.{◌≡◌};
ghost use Rattle.records.specs.Records.{LIMIT};
ghost use Rattle.routing.specs.Routing.{lists, route_refusal_numbers, route_numbers, RouteDone};

use answer::{Answer, refuse};
use records::LIMIT;
use split::Counts;

// Document 01's refusals 8, 10, 11 and 9 of routing.
#[derive(Clone, Copy)]
pub enum RouteRefusal {
    TooManyRecords,
    BadRecord { place: usize },
    BadAddress { place: usize },
    BufferShort,
}

// An answer in document 01's numbers: 0 or the refusal's number, its place, and the three counts.
#[derive(Clone, Copy)]
pub struct RouteNumbers {
    pub number: u64,
    pub place: u64,
    pub register: u64,
    pub aligned: u64,
    pub general: u64,
}

// Routes at most 65,536 access records: each goes, in arrival order, behind those that went to the same list before. The list of the
// register table has records of 8 numbers, the other two of 29. Refuses with 8, 10, 11 and 9, in this order and the lowest record first,
// and then writes nothing.
pub fn route_accesses(
    accesses: &[u64],
    register: &mut [u64],
    aligned: &mut [u64],
    general: &mut [u64],
) -> Result<Counts, RouteRefusal>
    ensures { RouteDone LIMIT 8 accesses.now
        (lists register.old aligned.old general.old)
        (route_numbers 8 result) (lists register.new aligned.new general.new) }
{
    split::route(LIMIT, accesses, register, aligned, general)
}

// Document 01's number and place of an answer, and its counts; `over` is the number of the refusal of too many records.
pub fn numbers(over: u64, found: Result<Counts, RouteRefusal>) -> RouteNumbers
    ensures { result ≡ route_numbers over found }
{
    match found {
        Ok(counts) => RouteNumbers {
            number: 0,
            place: 0,
            register: counts.register as u64,
            aligned: counts.aligned as u64,
            general: counts.general as u64,
        },
        Err(why) => {
            let refusal = refusal_numbers(over, why);
            RouteNumbers {
                number: refusal.number,
                place: refusal.place,
                register: 0,
                aligned: 0,
                general: 0,
            }
        }
    }
}

// Document 01's number and place of a refusal.
pub fn refusal_numbers(over: u64, why: RouteRefusal) -> Answer
    ensures { result ≡ route_refusal_numbers over why }
{
    match why {
        RouteRefusal::TooManyRecords => refuse(over, 0),
        RouteRefusal::BadRecord { place } => refuse(10, place as u64),
        RouteRefusal::BadAddress { place } => refuse(11, place as u64),
        RouteRefusal::BufferShort => refuse(9, 0),
    }
}
