// What every entry answers in numbers, for callers on the other side of a C boundary and for comparisons: a refusal's
// number, its place and a value. Assumes nothing.
#![tactic(auto)]

ghost use Rattle.std.specs.Prelude.{◌≡◌, ℕ, Ok, Err};
ghost use Rattle.answer.specs.Numbers.{accepted, refused};

// `number` is 0 on success, else the refusal's number; `place` is the refusal's place, and 0 on success; `value` is
// what the function found, the residue's index for 16, and 0 for any other refusal.
#[repr(C)]
#[derive(Clone, Copy)]
pub struct Answer {
    pub number: u64,
    pub place: u64,
    pub value: u64,
}

// A result and nothing refused.
pub fn accept(value: u64) -> Answer
    ensures { result ≡ accepted value }
{
    Answer {
        number: 0,
        place: 0,
        value,
    }
}

// A refusal with its place.
pub fn refuse(number: u64, place: u64) -> Answer
    ensures { result ≡ refused number place }
{
    Answer {
        number,
        place,
        value: 0,
    }
}

// The numbers of a result: what was found, or those of the refusal.
pub fn numbers<E: Into<Answer>>(found: Result<u64, E>) -> Answer
    ensures ok { (v : ℕ) → found ≡ Ok v → result ≡ accepted v }
    ensures err { (e : E) → found ≡ Err e → E.Into.converts e result }
{
    match found {
        Ok(value) => accept(value),
        Err(why) => why.into(),
    }
}
