// The columns of the aligned table; of several, the first. Assumes nothing.
ghost use Rattle.std.specs.Prelude.{[], ◌∷◌, ◌≡◌};
ghost use Rattle.memw.specs.AlignedColumns.{IS_REGISTER, BASE_ADDRESS, VALUE, TIMESTAMP, WRITE2, WRITE4, WRITE8};
ghost use Rattle.memw.specs.AlignedColumns.{OLD, OLD_TIMESTAMP, MU_READ, MU_WRITE, COLUMNS};

pub const IS_REGISTER: usize = 0;

// Low half, next half, high word.
pub const BASE_ADDRESS_0: usize = 1;

// Eight numbers.
pub const VALUE_0: usize = 4;

// Two words.
pub const TIMESTAMP_0: usize = 12;

// The width's flags.
pub const WRITE2: usize = 14;

pub const WRITE4: usize = 15;

pub const WRITE8: usize = 16;

// Eight numbers.
pub const OLD_0: usize = 17;

// Two words of the first old stamp.
pub const OLD_TIMESTAMP_0: usize = 25;

pub const MU_READ: usize = 27;

pub const MU_WRITE: usize = 28;

pub const NUM_COLUMNS: usize = 29;

// The constants above are the numbers of specs/AlignedColumns, in this order.
pub fn columns() -> [usize; 12]
    ensures { result ≡ IS_REGISTER ∷ BASE_ADDRESS ∷ VALUE ∷ TIMESTAMP ∷ WRITE2 ∷ WRITE4 ∷ WRITE8 ∷ OLD ∷ OLD_TIMESTAMP ∷ MU_READ ∷ MU_WRITE ∷ COLUMNS ∷ [] }
{
    [
        IS_REGISTER,
        BASE_ADDRESS_0,
        VALUE_0,
        TIMESTAMP_0,
        WRITE2,
        WRITE4,
        WRITE8,
        OLD_0,
        OLD_TIMESTAMP_0,
        MU_READ,
        MU_WRITE,
        NUM_COLUMNS,
    ]
}
