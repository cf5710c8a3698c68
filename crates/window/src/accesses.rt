// Internal to the workspace, not open to callers: one read or write of up to eight cells, with its access record. Assumes nothing but
// what each `requires` says.
ghost use Rattle.std.specs.Prelude.{◌≡◌, ◌+◌, ◌≤◌, length};
ghost use Rattle.access.specs.Access.{ACCESS_WIDTH, access_record};
ghost use Rattle.window.specs.Window.{cells_at, write_bytes, write_stamps, memory_access, read_access, write_access};
ghost use Rattle.window.specs.Inner.{cells_of, SameSlices};

use crate::Window;
use crate::cells::{read, write_bytes, write_stamps};

// Eight bytes as numbers of a record.
pub fn byte_words(value: [u8; 8]) -> [u64; 8]
    ensures { result ≡ value }
{
    value.map(|byte| u64::from(byte))
}

// The record of an access to memory.
fn access_record(
    address: u64,
    value: [u8; 8],
    stamp: u64,
    width: u64,
    reads: u64,
    old: [u8; 8],
    old_stamps: [u64; 8],
) -> [u64; 29]
    ensures { result ≡ access_record (memory_access address value stamp width reads old old_stamps) }
{
    let v = byte_words(value);
    let o = byte_words(old);
    let s = old_stamps;
    [
        0, address, v[0], v[1], v[2], v[3], v[4], v[5], v[6], v[7], stamp, width, reads, o[0],
        o[1], o[2], o[3], o[4], o[5], o[6], o[7], s[0], s[1], s[2], s[3], s[4], s[5], s[6], s[7],
    ]
}

impl Window<'_> {
    // The bytes of `width` cells from `a` on, and zeros to eight.
    pub fn bytes_at(&self, a: u64, width: u64) -> [u8; 8]
        requires { (width ≤ 8) × (a + width ≤ length self.now.bytes.now) }
        ensures { result ≡ cells_at self.now.bytes.now a width }
    {
        read(self.bytes, a as usize, width as usize, 0)
    }

    // Their stamps.
    pub fn stamps_at(&self, a: u64, width: u64) -> [u64; 8]
        requires { (width ≤ 8) × (a + width ≤ length self.now.bytes.now) }
        ensures { result ≡ cells_at self.now.stamps.now a width }
    {
        read(self.stamps, a as usize, width as usize, 0)
    }

    // Reads `width` cells at `src`, which bear `stamp` from now on, and records the read.
    pub fn read_cells(&mut self, src: u64, width: u64, stamp: u64, access: &mut [u64]) -> [u8; 8]
        requires { (width ≤ 8) × (src + width ≤ length self.old.bytes.now) × (length access.old ≡ ACCESS_WIDTH) }
        ensures value { result ≡ cells_at self.old.bytes.now src width }
        ensures bytes_after { self.new.bytes.now ≡ self.old.bytes.now }
        ensures stamps_after { self.new.stamps.now ≡ write_stamps self.old.stamps.now src width stamp }
        ensures access_after { access.new ≡ access_record (read_access (cells_of self.old) src width stamp) }
        ensures same { SameSlices self.old self.new }
    {
        let at = src as usize;
        let n = width as usize;
        let value = self.bytes_at(src, width);
        let old_stamps = self.stamps_at(src, width);
        let numbers = access_record(src, value, stamp, width, 1, value, old_stamps);
        access.copy_from_slice(&numbers);
        write_stamps(self.stamps, at, n, stamp);
        value
    }

    // Writes `width` of the eight values to the cells at `dst`, at `stamp`, and records the write.
    pub fn write_cells(
        &mut self,
        dst: u64,
        width: u64,
        value: [u8; 8],
        stamp: u64,
        access: &mut [u64],
    )
        requires { (width ≤ 8) × (dst + width ≤ length self.old.bytes.now) × (length access.old ≡ ACCESS_WIDTH) }
        ensures bytes_after { self.new.bytes.now ≡ write_bytes self.old.bytes.now dst width value }
        ensures stamps_after { self.new.stamps.now ≡ write_stamps self.old.stamps.now dst width stamp }
        ensures access_after { access.new ≡ access_record (write_access (cells_of self.old) dst width value stamp) }
        ensures same { SameSlices self.old self.new }
    {
        let at = dst as usize;
        let n = width as usize;
        let old = self.bytes_at(dst, width);
        let old_stamps = self.stamps_at(dst, width);
        let numbers = access_record(dst, value, stamp, width, 0, old, old_stamps);
        access.copy_from_slice(&numbers);
        write_bytes(self.bytes, at, n, value);
        write_stamps(self.stamps, at, n, stamp);
    }

    // Writes what was read of the cells at `src` back to them, at `stamp`, and records the read with the stamps found then.
    pub fn write_back(
        &mut self,
        src: u64,
        width: u64,
        value: [u8; 8],
        old_stamps: [u64; 8],
        stamp: u64,
        access: &mut [u64],
    )
        requires { (width ≤ 8) × (src + width ≤ length self.old.bytes.now) × (length access.old ≡ ACCESS_WIDTH) }
        ensures bytes_after { self.new.bytes.now ≡ write_bytes self.old.bytes.now src width value }
        ensures stamps_after { self.new.stamps.now ≡ write_stamps self.old.stamps.now src width stamp }
        ensures access_after { access.new ≡ access_record (memory_access src value stamp width 1 value old_stamps) }
        ensures same { SameSlices self.old self.new }
    {
        let at = src as usize;
        let n = width as usize;
        let numbers = access_record(src, value, stamp, width, 1, value, old_stamps);
        access.copy_from_slice(&numbers);
        write_bytes(self.bytes, at, n, value);
        write_stamps(self.stamps, at, n, stamp);
    }
}
