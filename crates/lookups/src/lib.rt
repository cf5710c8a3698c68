// The lookups of an access list: two bytes for each record that goes to the register table. Document 02: "Add a call that writes an access
// list's lookups, low byte then high byte, one pair for each register record in arrival order." Every list has an answer. Assumes nothing.
#![tactic(auto)]

pub mod pairs;

ghost use Rattle.std.specs.Prelude.{◌≡◌};
ghost use Rattle.records.specs.Records.{LIMIT};
ghost use Rattle.lookups.specs.Lookups.{lookup_numbers, LookupsDone};

use answer::{Answer, accept};
use records::LIMIT;
use routing::{RouteRefusal, refusal_numbers};

// Writes the lookups of at most 65,536 access records, and says how many pairs they are. Refuses with 8, then record by record with 10 and 11,
// as routing does, then with 9 for a short buffer of its own, and then writes nothing.
pub fn register_lookups(accesses: &[u64], lookups: &mut [u64]) -> Result<usize, RouteRefusal>
    ensures { LookupsDone LIMIT 8 accesses.now lookups.old (lookup_numbers 8 result) lookups.new }
{
    pairs::look_up(LIMIT, accesses, lookups)
}

// Document 01's number, place and value of an answer; `over` is the number of the refusal of too many records.
pub fn numbers(over: u64, found: Result<usize, RouteRefusal>) -> Answer
    ensures { result ≡ lookup_numbers over found }
{
    match found {
        Ok(pairs) => accept(pairs as u64),
        Err(why) => refusal_numbers(over, why),
    }
}
