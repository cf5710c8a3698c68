// Internal to the workspace, not open to callers: the tests of a copy row on plain numbers, each true exactly where its fact holds. Sums
// wrap as the Rust's, and products are with a bit. Assumes nothing but what each `requires` says.
ghost use Rattle.std.specs.Prelude.{◌≡◌, true, ◌↔◌, ◌+◌, ◌-◌, ◌*◌, ◌<◌};
ghost use Rattle.words.specs.Words.{wrap_add};
ghost use Rattle.copy_meaning.specs.Plain.{PlainFlags, PlainMoves, PlainCounts};

use words::{wrapping_add, wrapping_sub};

// 1 where nothing is left to move, else 0.
fn empty(count: u64) -> u64
    ensures { result ≡ 1 - count }
{
    u64::from(count == 0)
}

// A product with a bit.
#[tactic(auto, using(crate::proofs::Numbers::product_below))]
fn gated(x: u64, bit: u64) -> u64
    requires { bit < 2 }
    ensures { result ≡ x * bit }
{
    x * bit
}

pub fn flags(
    first: u64,
    end: u64,
    single: u64,
    set: u64,
    write: u64,
    first_write: u64,
    mu: u64,
    mu_com: u64,
    mu_com_wide: u64,
    count: u64,
) -> bool
    requires { (single < 2) × (set < 2) × (write < 2) }
    ensures { (result ≡ true) ↔ PlainFlags first end single set write first_write mu mu_com mu_com_wide count }
{
    let nothing = empty(count);
    (first <= mu)
        & (end <= mu)
        & (set + write <= mu)
        & (first_write == gated(first, write))
        & (nothing <= first)
        & (nothing <= end)
        & (mu_com == gated(1 - nothing, write))
        & (mu_com_wide == gated(mu_com, 1 - single))
}

// SRC or DST and its increment.
pub fn moves(single: u64, mu: u64, count: u64, x: u64, next: u64) -> bool
    requires { (single < 2) × (mu < 2) }
    ensures { (result ≡ true) ↔ PlainMoves (8 - 7 * single) mu count x next }
{
    (next == wrapping_add(x, 8 - 7 * single)) & ((mu == 0) | (count == 0) | (x < next))
}

// COUNT and its decrement.
pub fn counts(single: u64, end: u64, count: u64, next: u64) -> bool
    requires { (single < 2) × (end < 2) }
    ensures { (result ≡ true) ↔ PlainCounts (8 - 7 * single) end count next }
{
    let width = 8 - 7 * single;
    (next == wrapping_sub(count, width))
        & ((count == 0) | (width <= count))
        & ((end == 0) | (count <= width))
}

// DST_RES: where a Write ends, and DST else.
pub fn results(write: u64, dst: u64, count: u64, res: u64) -> bool
    requires { write < 2 }
    ensures { (result ≡ true) ↔ (res ≡ wrap_add dst (count * write)) }
{
    res == wrapping_add(dst, gated(count, write))
}

// The gap of a Set, as a plain sum.
pub fn gapped(gap: u64, set: u64, src: u64, dst: u64) -> bool
    requires { set < 2 }
    ensures { (result ≡ true) ↔ (set ≡ 1 → dst ≡ src + gap) }
{
    (set == 0) | ((src <= dst) & (wrapping_sub(dst, src) == gap))
}
