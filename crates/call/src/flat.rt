// Internal to the workspace, not open to callers: the call in a record. Assumes nothing but what each `requires` says.
ghost use Rattle.std.specs.Prelude.{◌≡◌, length};
ghost use Rattle.call.specs.Inner.{call_of};
ghost use Rattle.call.specs.Flat.{HANDED_WIDTH, call_from};

use crate::CopyCall;
use lists::slices::number;

// The call in the numbers that are handed in: kind, stamp, src, dst, count.
pub fn call_from(call: &[u64]) -> CopyCall
    requires { length call.now ≡ HANDED_WIDTH }
    ensures { call_of result ≡ call_from call.now }
{
    CopyCall {
        kind: call[0],
        timestamp: call[1],
        src: call[2],
        dst: call[3],
        count: call[4],
    }
}

// The stamp among these numbers; 0 in a cut call that has none.
pub fn stamp_of(call: &[u64]) -> u64
    ensures { result ≡ (call_from call.now).stamp }
{
    number(call, 1)
}
