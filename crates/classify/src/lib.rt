// The route of one access: which of the three access tables takes it. Document 01: "`classify_memw` routes: register if .., else aligned
// if .., else general." Document 02: "Let the route's register answer carry it", the low stamp difference less one. Assumes nothing.
#![tactic(auto)]

pub mod route;

ghost use Rattle.std.specs.Prelude.{◌≡◌, Ok, Err};
ghost use Rattle.answer.specs.Numbers.{refused};
ghost use Rattle.classify.specs.Classify.{memw_route, route_number, carried, access_numbers, classify_answer, classify_numbers};

use answer::{Answer, accept, refuse};

// The table that takes an access, as the Rust answers it. The order of the cases is that of the tests, and matters: what the register table
// takes, the aligned table would take too.
#[derive(Clone, Copy)]
pub enum MemwRoute {
    Register,
    Aligned,
    General,
}

// The route that is answered: the Rust's, and of the register table the low stamp difference less one, 0 to 65,535, which a row of it sends
// to the half-word lookup.
#[derive(Clone, Copy)]
pub enum AccessRoute {
    Register { delta_less_one: u64 },
    Aligned,
    General,
}

// The Rust's route, which is the answer without the number.
impl From<AccessRoute> for MemwRoute {
    ghost from_gives = { λ answered route. route ≡ memw_route answered };

    fn from(answered: AccessRoute) -> MemwRoute {
        match answered {
            AccessRoute::Register { .. } => MemwRoute::Register,
            AccessRoute::Aligned => MemwRoute::Aligned,
            AccessRoute::General => MemwRoute::General,
        }
    }
}

// Document 01's refusal 10: what came is no access record.
#[derive(Clone, Copy)]
pub struct BadRecord;

impl From<BadRecord> for Answer {
    ghost from_gives = { λ _ a. a ≡ refused 10 0 };

    fn from(_why: BadRecord) -> Answer {
        refuse(10, 0)
    }
}

// An answer that has a route, in numbers: document 01's three, the value being the Rust's route, and the number that the route carries, 0
// where it carries none.
#[derive(Clone, Copy)]
pub struct AccessNumbers {
    pub answer: Answer,
    pub delta_less_one: u64,
}

// The route of one access record.
#[tactic(auto, unfolding(crate::specs::Classify::classify_answer))]
pub fn classify_memw(op: &[u64]) -> Result<AccessRoute, BadRecord>
    ensures answer { classify_numbers result ≡ classify_numbers (classify_answer op.now) }
{
    if access::good_access(op) {
        return Ok(route::classify(op));
    }
    Err(BadRecord)
}

// A route's number: 0 register, 1 aligned, 2 general.
pub fn route_number(route: AccessRoute) -> u64
    ensures { result ≡ route_number (memw_route route) }
{
    match route {
        AccessRoute::Register { .. } => 0,
        AccessRoute::Aligned => 1,
        AccessRoute::General => 2,
    }
}

// The number that a route carries, 0 where it carries none.
pub fn carried(route: AccessRoute) -> u64
    ensures { result ≡ carried route }
{
    match route {
        AccessRoute::Register { delta_less_one } => delta_less_one,
        AccessRoute::Aligned | AccessRoute::General => 0,
    }
}

// An access that is routed, in numbers.
pub fn access_numbers(route: AccessRoute) -> AccessNumbers
    ensures { result ≡ access_numbers route }
{
    AccessNumbers {
        answer: accept(route_number(route)),
        delta_less_one: carried(route),
    }
}

// An answer that has a route, in numbers: the route's and the one that it carries, or those of the refusal, which carries none.
pub fn numbers<E: Into<Answer>>(found: Result<AccessRoute, E>) -> AccessNumbers
    ensures ok { (route : AccessRoute) → found ≡ Ok route → result ≡ access_numbers route }
    ensures err { (e : E) → found ≡ Err e → E.Into.converts e result.answer × (result.delta_less_one ≡ 0) }
{
    match found {
        Ok(route) => access_numbers(route),
        Err(why) => AccessNumbers {
            answer: why.into(),
            delta_less_one: 0,
        },
    }
}
