// Internal to the workspace, not open to callers: drawing numbers, and the calls made of them. Assumes nothing but what each `requires`
// says.
ghost use Rattle.std.specs.Prelude.{◌≡◌, ◌+◌, ◌*◌, ◌%◌, ◌^◌, ◌≤◌, ◌<◌, length};
ghost use Rattle.records.specs.Records.{LIMIT};
ghost use Rattle.call.specs.Flat.{HANDED_WIDTH, handed_numbers};
ghost use Rattle.load.specs.Load.{state_after, draw, kind_drawn, count_drawn, indexed, replaced, loaded};
ghost use Rattle.load.specs.Inner.{stepped_by, drawn_call};

use call::HANDED_WIDTH;
use lists::slices::put_at;

const MULTIPLIER: u64 = 6364136223846793005;

const INCREMENT: u64 = 1442695040888963407;

// A load under way: the state after the last draw, and the sum of the Write counts so far.
#[derive(Drop)]
struct Load {
    state: u64,
    index: u64,
}

impl Load {
    // Steps, and takes the upper 32 bits of the new state, modulo `limit`.
    fn draw(&mut self, limit: u64) -> u64
        requires { 0 < limit }
        ensures value { result ≡ draw self.old.state 0 % limit }
        ensures after { self.new ≡ stepped_by self.old 1 }
    {
        let next = self.state.wrapping_mul(MULTIPLIER).wrapping_add(INCREMENT);
        let value = next / 0x1_0000_0000 % limit;
        self.state = next;
        value
    }

    // The next call, with this stamp, in the numbers that are handed in.
    fn next_call(&mut self, stamp: u64) -> [u64; 5]
        requires { self.old.index ≤ 2 ^ 32 }
        ensures numbers { result ≡ handed_numbers (drawn_call self.old.state self.old.index stamp) }
        ensures state { self.new.state ≡ state_after self.old.state 4 }
        ensures index { self.new.index ≡ self.old.index + indexed (kind_drawn self.old.state 0) (count_drawn self.old.state 0) }
    {
        let kind = self.draw(3);
        let count = self.draw(33);
        let src = self.draw(900);
        let drawn = self.draw(900);
        let after = self.index + index_step(kind, count);
        let dst = replaced(kind, src, drawn, self.index);
        self.index = after;
        [kind, stamp, src, dst, count]
    }
}

// The dst of a call: what was drawn for it, src + 8 for a Set, and the index for a Write.
fn replaced(kind: u64, src: u64, drawn: u64, index: u64) -> u64
    requires { src < 900 }
    ensures { result ≡ replaced kind src drawn index }
{
    match kind {
        1 => src + 8,
        2 => index,
        _ => drawn,
    }
}

// How far a call moves the index: a Write by its count.
fn index_step(kind: u64, count: u64) -> u64
    ensures { result ≡ indexed kind count }
{
    if kind == 2 { count } else { 0 }
}

// Writes the first `n` calls.
pub fn write_calls(s: u64, n: usize, calls: &mut [u64])
    requires { (n ≤ LIMIT) × (HANDED_WIDTH * n ≤ length calls.old) }
    ensures { calls.new ≡ loaded s n calls.old }
{
    let mut load = Load { state: s, index: 0 };
    let mut stamp = 0;
    for k in 0..n {
        let numbers = load.next_call(stamp);
        put_at(calls, HANDED_WIDTH * k, &numbers);
        stamp += 4;
    }
}
