// Internal to the workspace, not open to callers: reading and writing the bytes and the stamps of up to eight cells. Eight, the common
// width, has a branch of its own: with the width a constant no loop is left. Assumes nothing but what each `requires` says.
ghost use Rattle.std.specs.Prelude.{◌≡◌, ◌+◌, ◌≤◌, length};
ghost use Rattle.window.specs.Window.{eight_cells, write_bytes, write_stamps};

// `width` cells from `at` on, and `zero` to eight.
pub fn read<T: Copy>(cells: &[T], at: usize, width: usize, zero: T) -> [T; 8]
    requires { (width ≤ 8) × (at + width ≤ length cells.now) }
    ensures { result ≡ eight_cells zero cells.now at width }
{
    let mut out = [zero; 8];
    if width == 8 {
        out.copy_from_slice(&cells[at..at + 8]);
    } else {
        out[..width].copy_from_slice(&cells[at..at + width]);
    }
    out
}

// The first `width` of the eight values into the bytes from `at` on.
pub fn write_bytes(bytes: &mut [u8], at: usize, width: usize, value: [u8; 8])
    requires { (width ≤ 8) × (at + width ≤ length bytes.old) }
    ensures { bytes.new ≡ write_bytes bytes.old at width value }
{
    if width == 8 {
        bytes[at..at + 8].copy_from_slice(&value);
    } else {
        bytes[at..at + width].copy_from_slice(&value[..width]);
    }
}

// `stamp` into `width` stamps from `at` on.
pub fn write_stamps(stamps: &mut [u64], at: usize, width: usize, stamp: u64)
    requires { at + width ≤ length stamps.old }
    ensures { stamps.new ≡ write_stamps stamps.old at width stamp }
{
    if width == 8 {
        stamps[at..at + 8].fill(stamp);
    } else {
        stamps[at..at + width].fill(stamp);
    }
}
