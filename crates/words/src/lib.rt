// A 64-bit number as words and halves, lowest first, a byte as a number, and sums, plain and taken modulo 2^64. Every function has a result for every input.
// Assumes nothing.
#![tactic(auto)]

ghost use Rattle.std.specs.Prelude.{◌≡◌, ◌+◌, ◌<◌, nat_lt};
ghost use Rattle.words.specs.Words.{words, halves, low_word, high_word, bit, wrap_add, wrap_sub};

// The bits below 2^32.
pub fn low_word(x: u64) -> u64
    ensures { result ≡ low_word x }
{
    x % 4294967296
}

// The bits from 2^32 on.
pub fn high_word(x: u64) -> u64
    ensures { result ≡ high_word x }
{
    x >> 32
}

pub fn words(x: u64) -> [u64; 2]
    ensures { result ≡ words x }
{
    [low_word(x), high_word(x)]
}

pub fn halves(x: u64) -> [u64; 4]
    ensures { result ≡ halves x }
{
    [x % 65536, (x >> 16) % 65536, (x >> 32) % 65536, x >> 48]
}

// A byte as a number of 64 bits.
pub fn wide(byte: u8) -> u64
    ensures { (result ≡ byte) × (result < 256) }
{
    u64::from(byte)
}

// b as a number.
pub fn bit(b: bool) -> u64
    ensures { result ≡ bit b }
{
    u64::from(b)
}

// The sum, for the INCR and RES columns: "sums taken modulo 2^64, as the Rust's wrapping calls".
pub fn wrapping_add(a: u64, b: u64) -> u64
    ensures { result ≡ wrap_add a b }
{
    a.wrapping_add(b)
}

// The difference, for the DECR columns: "sums taken modulo 2^64, as the Rust's wrapping calls".
pub fn wrapping_sub(a: u64, b: u64) -> u64
    ensures { result ≡ wrap_sub a b }
{
    a.wrapping_sub(b)
}

// Whether `at + count`, a plain sum, is above `end`.
pub fn past(end: u64, at: u64, count: u64) -> bool
    ensures { result ≡ nat_lt end (at + count) }
{
    if end < at {
        return true;
    }
    end - at < count
}
