// Internal to the workspace, not open to callers: the rows of the three access tables. Assumes nothing but what each `requires` says.
ghost use Rattle.std.specs.Prelude.{◌≡◌, ◌^◌, ◌≤◌, ◌<◌, length};
ghost use Rattle.words.specs.Words.{low_word, bit};
ghost use Rattle.access.specs.Access.{ACCESS_WIDTH, access_of};
ghost use Rattle.access.specs.Tables.{REGISTER_WIDTH};
ghost use Rattle.memw.specs.Rows.{write_flags, carry, carries, stamp_words, address_parts, memw_row, aligned_row, register_row, reg_row_of};
ghost use Rattle.memw.specs.Inner.{memw_operation};

use crate::{MemwOperation, RegRow};
use words::{bit, halves, words};

// The access of a record of 29 numbers.
pub fn operation(op: &[u64]) -> MemwOperation
    requires { length op.now ≡ ACCESS_WIDTH }
    ensures { memw_operation result ≡ access_of op.now }
{
    MemwOperation {
        is_register: op[0],
        base_address: op[1],
        value: [op[2], op[3], op[4], op[5], op[6], op[7], op[8], op[9]],
        timestamp: op[10],
        width: op[11],
        is_read: op[12],
        old: [
            op[13], op[14], op[15], op[16], op[17], op[18], op[19], op[20],
        ],
        old_timestamp: [
            op[21], op[22], op[23], op[24], op[25], op[26], op[27], op[28],
        ],
    }
}

// The register access of a record of 8 numbers.
pub fn reg_row(op: &[u64]) -> RegRow
    requires { length op.now ≡ REGISTER_WIDTH }
    ensures { result ≡ reg_row_of op.now }
{
    RegRow {
        index: op[0],
        timestamp: op[1],
        value: [op[2], op[3]],
        old: [op[4], op[5]],
        old_timestamp_lo: op[6],
        is_read: op[7],
    }
}

// WRITE2, WRITE4 and WRITE8 of a width.
fn write_flags(width: u64) -> [u64; 3]
    ensures { result ≡ write_flags width }
{
    [bit(width == 2), bit(width == 4), bit(width == 8)]
}

// The low word of an address, in 32 bits.
fn low_word(address: u64) -> u32
    ensures { result ≡ low_word address }
{
    (address % 0x1_0000_0000) as u32
}

// CARRY[i] of a low address word: 1 from 2^32 - 1 - i on. By a difference, since the sum that memw.rs takes can leave 32 bits.
fn carry(low: u32, i: u32) -> u64
    requires { (low < 2 ^ 32) × (i ≤ 6) }
    ensures { result ≡ carry low i }
{
    if 0xffff_ffff - i <= low { 1 } else { 0 }
}

// CARRY[0] to CARRY[6] of an address.
fn carries(address: u64) -> [u64; 7]
    ensures { result ≡ carries (low_word address) }
{
    let low = low_word(address);
    [
        carry(low, 0),
        carry(low, 1),
        carry(low, 2),
        carry(low, 3),
        carry(low, 4),
        carry(low, 5),
        carry(low, 6),
    ]
}

// The words of eight stamps.
fn stamp_words(stamps: [u64; 8]) -> [u64; 16]
    ensures { result ≡ stamp_words stamps }
{
    let a = words(stamps[0]);
    let b = words(stamps[1]);
    let c = words(stamps[2]);
    let d = words(stamps[3]);
    let e = words(stamps[4]);
    let f = words(stamps[5]);
    let g = words(stamps[6]);
    let h = words(stamps[7]);
    [
        a[0], a[1], b[0], b[1], c[0], c[1], d[0], d[1], e[0], e[1], f[0], f[1], g[0], g[1], h[0],
        h[1],
    ]
}

// The low half, the next half and the high word of an address.
fn address_parts(address: u64) -> [u64; 3]
    ensures { result ≡ address_parts address }
{
    let low = halves(address);
    let high = words(address);
    [low[0], low[1], high[1]]
}

// The general table's row.
pub fn memw_cells(op: MemwOperation) -> [u64; 49]
    ensures { result ≡ memw_row (memw_operation op) }
{
    let address = words(op.base_address);
    let value = op.value;
    let timestamp = words(op.timestamp);
    let write = write_flags(op.width);
    let old = op.old;
    let carry = carries(op.base_address);
    let old_timestamp = op.old_timestamp;
    let stamps = stamp_words(old_timestamp);
    [
        op.is_register,
        address[0],
        address[1],
        value[0],
        value[1],
        value[2],
        value[3],
        value[4],
        value[5],
        value[6],
        value[7],
        timestamp[0],
        timestamp[1],
        write[0],
        write[1],
        write[2],
        old[0],
        old[1],
        old[2],
        old[3],
        old[4],
        old[5],
        old[6],
        old[7],
        carry[0],
        carry[1],
        carry[2],
        carry[3],
        carry[4],
        carry[5],
        carry[6],
        stamps[0],
        stamps[1],
        stamps[2],
        stamps[3],
        stamps[4],
        stamps[5],
        stamps[6],
        stamps[7],
        stamps[8],
        stamps[9],
        stamps[10],
        stamps[11],
        stamps[12],
        stamps[13],
        stamps[14],
        stamps[15],
        op.is_read,
        bit(op.is_read == 0),
    ]
}

// The aligned table's row.
pub fn aligned_cells(op: MemwOperation) -> [u64; 29]
    ensures { result ≡ aligned_row (memw_operation op) }
{
    let address = address_parts(op.base_address);
    let value = op.value;
    let timestamp = words(op.timestamp);
    let write = write_flags(op.width);
    let old = op.old;
    let stamps = op.old_timestamp;
    let stamp = words(stamps[0]);
    [
        op.is_register,
        address[0],
        address[1],
        address[2],
        value[0],
        value[1],
        value[2],
        value[3],
        value[4],
        value[5],
        value[6],
        value[7],
        timestamp[0],
        timestamp[1],
        write[0],
        write[1],
        write[2],
        old[0],
        old[1],
        old[2],
        old[3],
        old[4],
        old[5],
        old[6],
        old[7],
        stamp[0],
        stamp[1],
        op.is_read,
        bit(op.is_read == 0),
    ]
}

// The register table's row.
pub fn register_cells(op: RegRow) -> [u64; 10]
    ensures { result ≡ register_row op }
{
    let timestamp = words(op.timestamp);
    let value = op.value;
    let old = op.old;
    [
        op.index,
        timestamp[0],
        timestamp[1],
        value[0],
        value[1],
        old[0],
        old[1],
        op.old_timestamp_lo,
        op.is_read,
        bit(op.is_read == 0),
    ]
}
