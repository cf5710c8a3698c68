// The registers that calls read and write, and the register step of one call: its access records and the state behind them. Every call
// has an answer. Assumes nothing.
#![tactic(auto)]

ghost use Rattle.std.specs.Prelude.{◌≡◌, ◌++◌, ◌+◌, ◌-◌, ◌*◌, ◌^◌, ◌≤◌, ◌<◌};
ghost use Rattle.registers.specs.Step.{new_state, wrote, step_refusal_numbers, step_numbers, read_back, committed, step_refused, register_step};

use access::{ACCESS_WIDTH, register_access};
use answer::Answer;
use call::Functionality;
use lists::slices::put_at;
use words::words;

// Register r holds values[r] since stamps[r]; the commit index (x254) and the program counter (x255) likewise.
#[derive(Clone, Copy)]
pub struct RegisterState {
    pub values: [u64; 32],
    pub stamps: [u64; 32],
    pub index: u32,
    pub index_stamp: u64,
    pub pc: u64,
    pub pc_stamp: u64,
}

// Document 01's refusals 4, 5 and 6 of a register step.
#[derive(Clone, Copy)]
pub enum StepRefusal {
    NotCommitIndex,
    PastIndex,
    NotStdout,
}

// Document 01's number and place of a refusal.
impl From<StepRefusal> for Answer {
    ghost from_gives = { λ why a. a ≡ step_refusal_numbers why };

    fn from(why: StepRefusal) -> Answer {
        match why {
            StepRefusal::NotCommitIndex => answer::refuse(4, 0),
            StepRefusal::PastIndex => answer::refuse(5, 0),
            StepRefusal::NotStdout => answer::refuse(6, 0),
        }
    }
}

// A register step: the number of its accesses, the state behind it, and four access records. A step that is refused leaves the state
// as it was.
#[derive(Clone, Copy)]
pub struct RegisterStep {
    pub answer: Result<u64, StepRefusal>,
    pub state: RegisterState,
    pub records: [u64; 116],
}

// The state in which a program starts.
pub fn new_register_state(entry_point: u64, stack_top: u64) -> RegisterState
    ensures { result ≡ new_state entry_point stack_top }
{
    let mut values = [0u64; 32];
    values[2] = stack_top;
    RegisterState {
        values,
        stamps: [1u64; 32],
        index: 0,
        index_stamp: 1,
        pc: entry_point,
        pc_stamp: 1,
    }
}

// The register accesses of one call, all at its timestamp: x11 holds src, x12 count, and x10 dst; for a write the commit index holds dst,
// and x10 the file descriptor, which is 1, and gets the count. x11 is taken to hold src and is not compared with it.
#[tactic(auto, unfolding(crate::specs::Step::register_step))]
pub fn collect_copy_register_ops(
    kind: Functionality,
    timestamp: u64,
    src: u64,
    dst: u64,
    count: u64,
    state: RegisterState,
) -> RegisterStep
    ensures answer { step_numbers result.answer ≡ step_numbers (register_step kind timestamp src dst count state).answer }
    ensures state { result.state ≡ (register_step kind timestamp src dst count state).state }
    ensures records { result.records ≡ (register_step kind timestamp src dst count state).records }
{
    match kind {
        Functionality::Copy | Functionality::Set => step_memory(timestamp, src, dst, count, state),
        Functionality::Write => step_write(timestamp, src, dst, count, state),
    }
}

// The step of a Copy or a Set, which is never refused.
#[tactic(auto, unfolding(crate::specs::Step::register_step))]
fn step_memory(timestamp: u64, src: u64, dst: u64, count: u64, state: RegisterState) -> RegisterStep
    ensures { result ≡ register_step Functionality.Copy timestamp src dst count state }
{
    let x11 = read_back(11, src, timestamp, state);
    let x12 = read_back(12, count, timestamp, state);
    let x10 = read_back(10, dst, timestamp, state);
    let records = four_records(x11, x12, x10, [0u64; 29]);
    let after = wrote(
        10,
        dst,
        timestamp,
        wrote(12, count, timestamp, wrote(11, src, timestamp, state)),
    );
    RegisterStep {
        answer: Ok(3),
        state: after,
        records,
    }
}

// The step of a Write: 4, 5, 6, else what it does.
#[tactic(auto, unfolding(crate::specs::Step::register_step))]
fn step_write(timestamp: u64, src: u64, dst: u64, count: u64, state: RegisterState) -> RegisterStep
    ensures { result ≡ register_step Functionality.Write timestamp src dst count state }
{
    let index = u64::from(state.index);
    if dst != index {
        return refused(StepRefusal::NotCommitIndex, state);
    }
    // dst is a word here: the difference says of the count what document 01 says of the plain sum.
    if 4294967295 - dst < count {
        return refused(StepRefusal::PastIndex, state);
    }
    if state.values[10] != 1 {
        return refused(StepRefusal::NotStdout, state);
    }
    commit(timestamp, src, dst, count, state)
}

// A Write that is not refused: the commit index advances by the count, and x10 returns it.
fn commit(timestamp: u64, src: u64, dst: u64, count: u64, state: RegisterState) -> RegisterStep
    requires { dst + count ≤ 2 ^ 32 - 1 }
    ensures { result ≡ committed timestamp src dst count state }
{
    let x11 = read_back(11, src, timestamp, state);
    let x12 = read_back(12, count, timestamp, state);
    let end = dst + count;
    let x254 = register_access(508, words(end), words(dst), timestamp, state.index_stamp, 1);
    let stamp = state.stamps[10];
    let x10 = register_access(20, words(count), words(1), timestamp, stamp, 1);
    let records = four_records(x11, x12, x254, x10);
    let mut after = wrote(12, count, timestamp, wrote(11, src, timestamp, state));
    after.index = end as u32;
    after.index_stamp = timestamp;
    let last = wrote(10, count, timestamp, after);
    RegisterStep {
        answer: Ok(4),
        state: last,
        records,
    }
}

// A step that is refused: the state as it came, and no access.
fn refused(why: StepRefusal, state: RegisterState) -> RegisterStep
    ensures { result ≡ step_refused why state }
{
    RegisterStep {
        answer: Err(why),
        state,
        records: [0u64; 116],
    }
}

// Register r is read and taken to hold `value`, whatever stands there.
fn read_back(r: usize, value: u64, timestamp: u64, state: RegisterState) -> [u64; 29]
    requires { r < 32 }
    ensures { result ≡ read_back r value timestamp state }
{
    let stamp = state.stamps[r];
    register_access(
        2 * (r as u64),
        words(value),
        words(value),
        timestamp,
        stamp,
        1,
    )
}

// Register r gets a value at a timestamp.
fn wrote(r: usize, value: u64, timestamp: u64, state: RegisterState) -> RegisterState
    requires { r < 32 }
    ensures { result ≡ wrote r value timestamp state }
{
    let mut after = state;
    after.values[r] = value;
    after.stamps[r] = timestamp;
    after
}

// Four records, one behind the other.
#[tactic(auto, using(crate::proofs::FourRecords::four_stored))]
fn four_records(a: [u64; 29], b: [u64; 29], c: [u64; 29], d: [u64; 29]) -> [u64; 116]
    ensures { result ≡ a ++ (b ++ (c ++ d)) }
{
    let mut records = [0u64; 116];
    put_at(&mut records, 0, &a);
    put_at(&mut records, ACCESS_WIDTH, &b);
    put_at(&mut records, 2 * ACCESS_WIDTH, &c);
    put_at(&mut records, 3 * ACCESS_WIDTH, &d);
    records
}
