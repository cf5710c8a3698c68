// Internal to the workspace, not open to callers: a call's rows and their operation records. Assumes nothing but what each `requires`
// says.
ghost use Rattle.std.specs.Prelude.{◌≡◌, ◌+◌, ◌≤◌, ◌<◌, ◌^◌, leb, length};
ghost use Rattle.words.specs.Words.{bit};
ghost use Rattle.call.specs.Inner.{call_of};
ghost use Rattle.call.specs.Ops.{op_record};
ghost use Rattle.call.specs.Cuts.{rest};
ghost use Rattle.expansion_rows.specs.Rows.{one_page, is_wide, copy_row_width, widths_of};

use call::CopyCall;
use window::accesses::byte_words;

// From one edge to the next.
const PAGE: u64 = 4096;

// Whether eight bytes from a on lie between two neighbouring edges. No sum: a may be any number.
fn one_page(a: u64) -> bool
    ensures { result ≡ one_page a }
{
    a % PAGE <= PAGE - 8
}

// Whether the next row moves eight bytes; a Write's dst is an index, and not judged.
fn is_wide(call: CopyCall) -> bool
    ensures { result ≡ is_wide (call_of call) }
{
    (8 <= call.count) & (one_page(call.src) & ((call.kind == 2) | one_page(call.dst)))
}

// How many bytes the next row moves.
#[tactic(auto, unfolding(crate::specs::Rows::copy_row_width))]
pub fn copy_row_width(call: CopyCall) -> u64
    ensures { result ≡ copy_row_width (call_of call) }
{
    if is_wide(call) { 8 } else { 1 }
}

// What remains of a call after a row of that width.
pub fn rest(call: CopyCall, width: u64) -> CopyCall
    requires { (width ≤ call.count) × (call.src + call.count < 2 ^ 64) × (call.dst + call.count < 2 ^ 64) }
    ensures { call_of result ≡ rest (call_of call) width }
{
    CopyCall {
        kind: call.kind,
        timestamp: call.timestamp,
        src: call.src + width,
        dst: call.dst + width,
        count: call.count - width,
    }
}

// How many rows a call has.
pub fn row_count(call: CopyCall) -> usize
    requires { (call.src + call.count < 2 ^ 64) × (call.dst + call.count < 2 ^ 64) }
    ensures value { result ≡ length (widths_of (call_of call)) }
    ensures upper_bound { result ≤ call.count }
{
    let mut left = call;
    let mut n = 0;
    while 0 < left.count {
        left = rest(left, copy_row_width(left));
        n += 1;
    }
    n
}

// The operation record of a row: END where it moves all that remains.
pub fn op_record(call: CopyCall, width: u64, first: u64, value: [u8; 8]) -> [u64; 16]
    ensures { result ≡ op_record (record {
      call = call_of call;
      piece = record { width = width; value = value };
      first = first;
      end = bit (leb call.count width);
    }) }
{
    let v = byte_words(value);
    let end = u64::from(call.count <= width);
    [
        call.timestamp,
        call.src,
        call.dst,
        call.count,
        width,
        first,
        end,
        call.kind,
        v[0],
        v[1],
        v[2],
        v[3],
        v[4],
        v[5],
        v[6],
        v[7],
    ]
}
