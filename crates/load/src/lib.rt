// A load: calls that are drawn from one number, and so the same each time. Document 02: "It hands in the first s and the number of calls,
// and gets five numbers for each call, as read-back orders them." Assumes nothing.
#![tactic(auto)]

mod draws;

ghost use Rattle.std.specs.Prelude.{◌≡◌};
ghost use Rattle.load.specs.Load.{load_refusal_numbers, load_numbers, LoadDone};

use answer::{Answer, refuse};
use call::HANDED_WIDTH;
use draws::write_calls;
use records::LIMIT;

// What the load refuses.
#[derive(Clone, Copy)]
pub enum LoadRefusal {
    // 19: more than 65,536 calls are wanted
    TooManyCalls,
    // 9: the buffer is shorter than the result
    BufferShort,
}

impl From<LoadRefusal> for Answer {
    ghost from_gives = { λ why answer. answer ≡ load_refusal_numbers why };

    fn from(why: LoadRefusal) -> Answer {
        match why {
            LoadRefusal::TooManyCalls => refuse(19, 0),
            LoadRefusal::BufferShort => refuse(9, 0),
        }
    }
}

// Writes the first `n` calls of the load of `s` into `calls`, as they are handed in: kind, stamp, src, dst, count. Answers how many calls
// are written. Refuses with 19 and 9, in this order, and then writes nothing.
pub fn generate_load(s: u64, n: u64, calls: &mut [u64]) -> Result<u64, LoadRefusal>
    ensures { LoadDone s n calls.old (load_numbers result) calls.new }
{
    let wanted = n as usize;
    let room = calls.len() / HANDED_WIDTH;
    if LIMIT < wanted {
        return Err(LoadRefusal::TooManyCalls);
    }
    if room < wanted {
        return Err(LoadRefusal::BufferShort);
    }
    write_calls(s, wanted, calls);
    Ok(n)
}
