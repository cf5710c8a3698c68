// Internal to the workspace, not open to callers: elements as numbers below p = 2^64 - 2^32 + 1, and their sums, differences and
// products (document 01: "Add, subtract, multiply modulo p"). Products by halves of 32 bits, since there are no 128-bit numbers here.
// Assumes nothing.
ghost use Rattle.std.specs.Prelude.{◌≡◌, ◌+◌, ◌*◌, ◌/◌, ◌%◌, ◌^◌, ◌<◌};
ghost use Rattle.field.specs.Field.{p, add_p, sub_p, mul_p, bit_p};

use std::ops::{Add, Mul, Sub};

pub const P: u64 = 18446744069414584321;

// 2^-32. The constants of the count's borrow, which are products of it, stand in specs/Constants: no code computes with them.
pub const INV_SHIFT_32: u64 = 18446744065119617026;

// A number below p.
#[derive(Clone, Copy)]
pub struct Element {
    pub value: u64,
    ghost below_p: { value < p },
}

pub const ZERO: Element = Element { value: 0 };

pub const ONE: Element = Element { value: 1 };

// With no sum above 2^64 on the way.
impl Add for Element {
    type Output = Element;

    ghost add_gives = { λ a b r. r.value ≡ add_p a.value b.value };

    #[tactic(auto, unfolding(crate::specs::Field::add_p))]
    fn add(self, b: Element) -> Element {
        let room = P - b.value;
        Element {
            value: if self.value < room {
                self.value + b.value
            } else {
                self.value - room
            },
        }
    }
}

impl Sub for Element {
    type Output = Element;

    ghost sub_gives = { λ a b r. r.value ≡ sub_p a.value b.value };

    #[tactic(auto, unfolding(crate::specs::Field::sub_p))]
    fn sub(self, b: Element) -> Element {
        Element {
            value: if b.value <= self.value {
                self.value - b.value
            } else {
                self.value + (P - b.value)
            },
        }
    }
}

// At once where the first factor is 0: most gates of a right row are shut.
impl Mul for Element {
    type Output = Element;

    ghost mul_gives = { λ a b r. r.value ≡ mul_p a.value b.value };

    #[tactic(auto, using(crate::proofs::Laws::zero_mul_p))]
    fn mul(self, b: Element) -> Element {
        if self.value == 0 {
            return self;
        }
        product(self.value, b.value)
    }
}

impl Element {
    // x(1 - x), at once for the bits 0 and 1, which a right row holds.
    #[tactic(auto, using(crate::proofs::Laws::bit_zero), unfolding(crate::specs::Field::bit_p))]
    pub fn is_bit(self) -> Element
        ensures { result.value ≡ bit_p self.value }
    {
        if self.value < 2 {
            return ZERO;
        }
        self * (ONE - self)
    }
}

// hi * 2^64 + lo modulo p, by 2^64 = 2^32 - 1 and 2^96 = -1: the low word of hi counts 2^32 - 1 times, its high word is taken away.
pub fn reduce(hi: u64, lo: u64) -> u64
    ensures { (result ≡ (hi * 2 ^ 64 + lo) % p) × (result < p) }
{
    let top = hi / 0x1_0000_0000;
    let middle = hi % 0x1_0000_0000 * 0xffff_ffff;
    let low = if top <= lo { lo - top } else { lo + (P - top) };
    let room = P - middle;
    if low < room { low + middle } else { low - room }
}

// The upper 64 bits of a * b, by products of halves. The compiler knows this shape and that of `low` and makes of both one machine
// multiplication.
fn high(a: u64, b: u64) -> u64
    ensures { result ≡ a * b / 2 ^ 64 }
{
    let a0 = a % 0x1_0000_0000;
    let a1 = a / 0x1_0000_0000;
    let b0 = b % 0x1_0000_0000;
    let b1 = b / 0x1_0000_0000;
    let t = a1 * b0 + a0 * b0 / 0x1_0000_0000;
    let w = a0 * b1 + t % 0x1_0000_0000;
    a1 * b1 + t / 0x1_0000_0000 + w / 0x1_0000_0000
}

// The lower 64 bits of a * b: the product of the high halves has no part in them.
pub fn low(a: u64, b: u64) -> u64
    ensures { result ≡ a * b % 2 ^ 64 }
{
    let a0 = a % 0x1_0000_0000;
    let a1 = a / 0x1_0000_0000;
    let b0 = b % 0x1_0000_0000;
    let b1 = b / 0x1_0000_0000;
    let middle = (a0 * b1).wrapping_add(a1 * b0);
    (middle << 32).wrapping_add(a0 * b0)
}

// a * b, for any two numbers.
fn product(a: u64, b: u64) -> Element
    ensures { result.value ≡ mul_p a b }
{
    Element {
        value: reduce(high(a, b), low(a, b)),
    }
}
