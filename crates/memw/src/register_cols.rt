// The columns of the register table; of several, the first. Assumes nothing.
ghost use Rattle.std.specs.Prelude.{[], ◌∷◌, ◌≡◌};
ghost use Rattle.memw.specs.RegisterColumns.{INDEX, TIMESTAMP, VALUE, OLD, OLD_TIMESTAMP_LO, MU_READ, MU_WRITE, COLUMNS};

pub const INDEX: usize = 0;

// Two words.
pub const TIMESTAMP_0: usize = 1;

// Two words.
pub const VALUE_0: usize = 3;

// Two words.
pub const OLD_0: usize = 5;

// The low word of the old stamp.
pub const OLD_TIMESTAMP_LO: usize = 7;

pub const MU_READ: usize = 8;

pub const MU_WRITE: usize = 9;

pub const NUM_COLUMNS: usize = 10;

// The constants above are the numbers of specs/RegisterColumns, in this order.
pub fn columns() -> [usize; 8]
    ensures { result ≡ INDEX ∷ TIMESTAMP ∷ VALUE ∷ OLD ∷ OLD_TIMESTAMP_LO ∷ MU_READ ∷ MU_WRITE ∷ COLUMNS ∷ [] }
{
    [
        INDEX,
        TIMESTAMP_0,
        VALUE_0,
        OLD_0,
        OLD_TIMESTAMP_LO,
        MU_READ,
        MU_WRITE,
        NUM_COLUMNS,
    ]
}
