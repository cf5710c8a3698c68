// The kinds of records that lists hold: how many numbers a record of each has, and which runs of numbers are one. Assumes nothing.
#![tactic(auto)]

pub mod judge;

ghost use Rattle.std.specs.Prelude.{◌≡◌};
ghost use Rattle.kinds.specs.Kinds.{kind_width, good_of_kind};

use access::{ACCESS_WIDTH, REGISTER_WIDTH, good_access, good_register};
use call::{HANDED_WIDTH, OP_WIDTH, good_call, good_op};

// One kind for each form of a record: the copy table's; that of the general and the aligned table; the register table's; a call as it is
// handed in.
#[derive(Clone, Copy)]
pub enum RecordKind {
    Operation,
    Access,
    Register,
    Call,
}

// Numbers in a record.
pub fn width_of(kind: RecordKind) -> usize
    ensures { result ≡ kind_width kind }
{
    match kind {
        RecordKind::Operation => OP_WIDTH,
        RecordKind::Access => ACCESS_WIDTH,
        RecordKind::Register => REGISTER_WIDTH,
        RecordKind::Call => HANDED_WIDTH,
    }
}

// Whether a record is whole and each field is among its values.
pub fn good_record(kind: RecordKind, op: &[u64]) -> bool
    ensures { result ≡ good_of_kind kind op.now }
{
    match kind {
        RecordKind::Operation => good_op(op),
        RecordKind::Access => good_access(op),
        RecordKind::Register => good_register(op),
        RecordKind::Call => good_call(op),
    }
}
