// Internal to the workspace, not open to callers: the range of a copy row's columns. Document 01: "In range: all 41 numbers elements,
// VALUE below 256, WL columns words, HL columns halves." A row is a slice of its own. Assumes nothing.
ghost use Rattle.std.specs.Prelude.{◌≡◌, length};
ghost use Rattle.copy_row.specs.Columns.{COLUMNS};
ghost use Rattle.copy_residues.specs.Range.{limits_to, first_out};

use copy_row::cols;
use field::element::P;

const BYTE: u64 = 0x100;

pub const HALF: u64 = 0x1_0000;

pub const WORD: u64 = 0x1_0000_0000;

// The least number that is too large for each column, in the order of the columns: timestamp, VALUE, SRC, SRC_INCR, DST, DST_INCR, COUNT,
// COUNT_DECR, DST_RES; `top` for the nine flags.
pub fn limits(top: u64) -> [u64; 41]
    ensures { result ≡ limits_to top }
{
    [
        WORD, WORD, BYTE, BYTE, BYTE, BYTE, BYTE, BYTE, BYTE, BYTE, WORD, WORD, HALF, HALF, HALF,
        HALF, WORD, WORD, HALF, HALF, HALF, HALF, WORD, WORD, HALF, HALF, HALF, HALF, HALF, HALF,
        HALF, HALF, top, top, top, top, top, top, top, top, top,
    ]
}

// The lowest column out of range, or 41: 15. A flag may be any element.
pub fn first_out(row: &[u64]) -> usize
    requires { length row.now ≡ COLUMNS }
    ensures { result ≡ first_out row.now }
{
    let below = limits(P);
    for c in 0..cols::NUM_COLUMNS {
        if below[c] <= row[c] {
            return c;
        }
    }
    cols::NUM_COLUMNS
}
