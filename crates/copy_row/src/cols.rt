// The columns of a copy row, by the names of copy.rs: words (WL) and halves (HL), lowest first. Assumes nothing.
ghost use Rattle.std.specs.Prelude.{[], ◌∷◌, ◌≡◌, ◌+◌};
ghost use Rattle.copy_row.specs.Columns.{TIMESTAMP, VALUE, SRC, SRC_INCR, DST, DST_INCR, COUNT, COUNT_DECR, DST_RES, FIRST, END, SINGLE};
ghost use Rattle.copy_row.specs.Columns.{IS_SET, IS_WRITE, FIRST_WRITE, MU, MU_COM, MU_COM_WIDE, COLUMNS};

pub const TIMESTAMP_0: usize = 0;

pub const TIMESTAMP_1: usize = 1;

pub const VALUE_0: usize = 2;

pub const SRC_0: usize = 10;

pub const SRC_1: usize = 11;

// src + width, four halves.
pub const SRC_INCR_0: usize = 12;

pub const DST_0: usize = 16;

pub const DST_1: usize = 17;

// dst + width, four halves.
pub const DST_INCR_0: usize = 18;

pub const COUNT_0: usize = 22;

pub const COUNT_1: usize = 23;

// count - width, four halves; an empty call's row wraps.
pub const COUNT_DECR_0: usize = 24;

// dst + count for a Write, else dst, four halves.
pub const DST_RES_0: usize = 28;

pub const FIRST: usize = 32;

pub const END: usize = 33;

// 1 where the row moves one byte and not eight.
pub const SINGLE: usize = 34;

pub const IS_SET: usize = 35;

pub const IS_WRITE: usize = 36;

// FIRST of a Write.
pub const FIRST_WRITE: usize = 37;

// 1 on a live row, 0 on a dead one.
pub const MU: usize = 38;

// 1 on a Write's row that moves bytes, and on one that moves eight.
pub const MU_COM: usize = 39;

pub const MU_COM_WIDE: usize = 40;

pub const NUM_COLUMNS: usize = 41;

// The constants above are the numbers of specs/Columns, in this order.
pub fn columns() -> [usize; 23]
    ensures { result
        ≡ TIMESTAMP
        ∷ (TIMESTAMP + 1)
        ∷ VALUE
        ∷ SRC
        ∷ (SRC + 1)
        ∷ SRC_INCR
        ∷ DST
        ∷ (DST + 1)
        ∷ DST_INCR
        ∷ COUNT
        ∷ (COUNT + 1)
        ∷ COUNT_DECR
        ∷ DST_RES
        ∷ FIRST
        ∷ END
        ∷ SINGLE
        ∷ IS_SET
        ∷ IS_WRITE
        ∷ FIRST_WRITE
        ∷ MU
        ∷ MU_COM
        ∷ MU_COM_WIDE
        ∷ COLUMNS
        ∷ [] }
{
    [
        TIMESTAMP_0,
        TIMESTAMP_1,
        VALUE_0,
        SRC_0,
        SRC_1,
        SRC_INCR_0,
        DST_0,
        DST_1,
        DST_INCR_0,
        COUNT_0,
        COUNT_1,
        COUNT_DECR_0,
        DST_RES_0,
        FIRST,
        END,
        SINGLE,
        IS_SET,
        IS_WRITE,
        FIRST_WRITE,
        MU,
        MU_COM,
        MU_COM_WIDE,
        NUM_COLUMNS,
    ]
}
