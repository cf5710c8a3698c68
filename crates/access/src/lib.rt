// The access record: which runs of numbers are one; and the three tables that take accesses. Assumes nothing.
#![tactic(auto)]

ghost use Rattle.std.specs.Prelude.{◌≡◌};
ghost use Rattle.access.specs.Access.{access_record, is_width, good_access};
ghost use Rattle.access.specs.RegisterAccess.{register_access};
ghost use Rattle.access.specs.RegisterRecord.{good_register};
ghost use Rattle.access.specs.Tables.{record_width};

use records::tables::within_limits;

// Where the numbers stand in a record, by the names of `MemwOperation`; VALUE, OLD and OLD_TIMESTAMP are the first of eight.
pub const IS_REGISTER: usize = 0;

pub const BASE_ADDRESS: usize = 1;

pub const VALUE: usize = 2;

pub const TIMESTAMP: usize = 10;

pub const WIDTH: usize = 11;

pub const IS_READ: usize = 12;

pub const OLD: usize = 13;

pub const OLD_TIMESTAMP: usize = 21;

// Numbers in a record.
pub const ACCESS_WIDTH: usize = 29;

// The three access tables. Each has a list of records of its own.
#[derive(Clone, Copy)]
pub enum AccessTable {
    // memw.rs: bytes with different old stamps, or an unaligned access.
    General,
    // One old stamp, and an address that is a multiple of the width.
    Aligned,
    // Two words of a register, whose old stamp is close.
    Register,
}

// Numbers in a record of the register table.
pub const REGISTER_WIDTH: usize = 8;

// Numbers in a record of a table's list.
pub fn record_width(t: AccessTable) -> usize
    ensures { result ≡ record_width t }
{
    match t {
        AccessTable::General | AccessTable::Aligned => ACCESS_WIDTH,
        AccessTable::Register => REGISTER_WIDTH,
    }
}

// The largest value of each number of a record.
const ACCESS_LIMITS: [u64; 29] = [
    1,
    0xffff_ffff_ffff_ffff,
    0xffff_ffff,
    0xffff_ffff,
    0xffff_ffff,
    0xffff_ffff,
    0xffff_ffff,
    0xffff_ffff,
    0xffff_ffff,
    0xffff_ffff,
    0xffff_ffff_ffff_ffff,
    8,
    1,
    0xffff_ffff,
    0xffff_ffff,
    0xffff_ffff,
    0xffff_ffff,
    0xffff_ffff,
    0xffff_ffff,
    0xffff_ffff,
    0xffff_ffff,
    0xffff_ffff_ffff_ffff,
    0xffff_ffff_ffff_ffff,
    0xffff_ffff_ffff_ffff,
    0xffff_ffff_ffff_ffff,
    0xffff_ffff_ffff_ffff,
    0xffff_ffff_ffff_ffff,
    0xffff_ffff_ffff_ffff,
    0xffff_ffff_ffff_ffff,
];

// Whether `op` is an access record: whole, and each field among its values.
#[tactic(auto, using(records::proofs::Records::within_length), unfolding(crate::specs::Access::good_access, crate::specs::Access::access_limits))]
pub fn good_access(op: &[u64]) -> bool
    ensures { result ≡ good_access op.now }
{
    within_limits(op, &ACCESS_LIMITS) && is_width(op[WIDTH])
}

// The largest value of each number of a record of the register table.
const REGISTER_LIMITS: [u64; 8] = [
    0xffff,
    0xffff_ffff_ffff_ffff,
    0xffff_ffff,
    0xffff_ffff,
    0xffff_ffff,
    0xffff_ffff,
    0xffff_ffff,
    1,
];

// Whether `op` is a record of the register table: whole, and each field among its values.
#[tactic(auto, unfolding(crate::specs::RegisterRecord::register_limits))]
pub fn good_register(op: &[u64]) -> bool
    ensures { result ≡ good_register op.now }
{
    within_limits(op, &REGISTER_LIMITS)
}

// The record of an access of a register: `address` is twice its number, and `value` and `old` are its words.
pub fn register_access(
    address: u64,
    value: [u64; 2],
    old: [u64; 2],
    timestamp: u64,
    old_timestamp: u64,
    is_read: u64,
) -> [u64; 29]
    ensures { result ≡ access_record (register_access address value old timestamp old_timestamp is_read) }
{
    [
        1,
        address,
        value[0],
        value[1],
        0,
        0,
        0,
        0,
        0,
        0,
        timestamp,
        2,
        is_read,
        old[0],
        old[1],
        0,
        0,
        0,
        0,
        0,
        0,
        old_timestamp,
        old_timestamp,
        0,
        0,
        0,
        0,
        0,
        0,
    ]
}

// Whether an access has this width.
fn is_width(width: u64) -> bool
    ensures { result ≡ is_width width }
{
    (width == 1) | ((width == 2) | ((width == 4) | (width == 8)))
}
