// The columns of the general table, by the names of memw.rs; of several, the first. Assumes nothing.
ghost use Rattle.std.specs.Prelude.{[], ◌∷◌, ◌≡◌};
ghost use Rattle.memw.specs.MemwColumns.{IS_REGISTER, BASE_ADDRESS, VALUE, TIMESTAMP, WRITE2, WRITE4, WRITE8};
ghost use Rattle.memw.specs.MemwColumns.{OLD, CARRY, OLD_TIMESTAMP, MU_READ, MU_WRITE, COLUMNS};

pub const IS_REGISTER: usize = 0;

// Two words.
pub const BASE_ADDRESS_0: usize = 1;

// Eight numbers.
pub const VALUE_0: usize = 3;

// Two words.
pub const TIMESTAMP_0: usize = 11;

// The width's flags.
pub const WRITE2: usize = 13;

pub const WRITE4: usize = 14;

pub const WRITE8: usize = 15;

// Eight numbers.
pub const OLD_0: usize = 16;

// Seven bits.
pub const CARRY_0: usize = 24;

// Two words of each of eight stamps.
pub const OLD_TIMESTAMP_START: usize = 31;

pub const MU_READ: usize = 47;

pub const MU_WRITE: usize = 48;

pub const NUM_COLUMNS: usize = 49;

// The constants above are the numbers of specs/MemwColumns, in this order.
pub fn columns() -> [usize; 13]
    ensures { result ≡ IS_REGISTER ∷ BASE_ADDRESS ∷ VALUE ∷ TIMESTAMP ∷ WRITE2 ∷ WRITE4 ∷ WRITE8 ∷ OLD
        ∷ CARRY ∷ OLD_TIMESTAMP ∷ MU_READ ∷ MU_WRITE ∷ COLUMNS ∷ [] }
{
    [
        IS_REGISTER,
        BASE_ADDRESS_0,
        VALUE_0,
        TIMESTAMP_0,
        WRITE2,
        WRITE4,
        WRITE8,
        OLD_0,
        CARRY_0,
        OLD_TIMESTAMP_START,
        MU_READ,
        MU_WRITE,
        NUM_COLUMNS,
    ]
}
