// The register step and a new state for callers that have numbers and slices only: a state is 68 numbers, 32 values, 32 stamps, then the
// commit index, its stamp, the program counter and its stamp. Assumes nothing.
ghost use Rattle.std.specs.Prelude.{◌≡◌, ◌++◌, ◌+◌, ◌^◌, ◌≤◌, ◌<◌, length, take, drop};
ghost use Rattle.answer.specs.Numbers.{accepted};
ghost use Rattle.lists.specs.Lists.{at};
ghost use Rattle.registers.specs.Step.{new_state};
ghost use Rattle.exports.specs.FlatRegisters.{STATE_INDEX, state_of, state_numbers, FlatStepped};

use answer::{Answer, accept, refuse};
use call::{kind_of, no_kind};
use lists::slices::{put, put_at};
use registers::RegisterState;

// The state in which a program starts.
pub fn new_register_state(entry_point: u64, stack_top: u64, state: &mut [u64; 68]) -> Answer
    ensures answer { result ≡ accepted 0 }
    ensures state { state.new ≡ state_numbers (new_state entry_point stack_top) }
{
    *state = state_numbers(registers::new_register_state(entry_point, stack_top));
    accept(0)
}

// The register step of a call: 10 for a kind above 2 or an index of 2^32 or more, then 4, 5, 6. A refusal writes nothing.
pub fn collect_copy_register_ops(
    kind: u64,
    timestamp: u64,
    src: u64,
    dst: u64,
    count: u64,
    state: &mut [u64; 68],
    records: &mut [u64; 116],
) -> Answer
    ensures { FlatStepped (record { kind = kind; stamp = timestamp; src = src; dst = dst; count = count })
        state.old records.old result state.new records.new }
{
    let flat = *state;
    if no_kind(kind) {
        return refuse(10, 0);
    }
    if 4294967295 < flat[64] {
        return refuse(10, 0);
    }
    let step = registers::collect_copy_register_ops(
        kind_of(kind),
        timestamp,
        src,
        dst,
        count,
        state_of(flat),
    );
    let answer = answer::numbers(step.answer);
    if answer.number != 0 {
        return answer;
    }
    let after = step.state;
    *state = state_numbers(after);
    let list = step.records;
    *records = list;
    answer
}

// The state of 68 numbers.
fn state_of(flat: [u64; 68]) -> RegisterState
    requires { at flat STATE_INDEX < 2 ^ 32 }
    ensures { result ≡ state_of flat }
{
    RegisterState {
        values: thirty_two(flat, 0),
        stamps: thirty_two(flat, 32),
        index: flat[64] as u32,
        index_stamp: flat[65],
        pc: flat[66],
        pc_stamp: flat[67],
    }
}

// The 32 numbers from `start` on.
fn thirty_two(flat: [u64; 68], start: usize) -> [u64; 32]
    requires { start + 32 ≤ 68 }
    ensures { result ≡ take 32 (drop start flat) }
{
    let mut part = [0u64; 32];
    put_part(&mut part, &flat, start);
    part
}

fn put_part(part: &mut [u64], flat: &[u64], start: usize)
    requires { (length part.old ≡ 32) × (start + 32 ≤ length flat.now) }
    ensures { part.new ≡ take 32 (drop start flat.now) }
{
    put(part, &flat[start..start + 32]);
}

// The 68 numbers of a state.
fn state_numbers(state: RegisterState) -> [u64; 68]
    ensures { result ≡ state_numbers state }
{
    let values = state.values;
    let stamps = state.stamps;
    let rest = [
        u64::from(state.index),
        state.index_stamp,
        state.pc,
        state.pc_stamp,
    ];
    let mut flat = [0u64; 68];
    put_three(&mut flat, &values, &stamps, &rest);
    flat
}

fn put_three(flat: &mut [u64], values: &[u64], stamps: &[u64], rest: &[u64])
    requires { (length flat.old ≡ 68) × (length values.now ≡ 32) × (length stamps.now ≡ 32) × (length rest.now ≡ 4) }
    ensures { flat.new ≡ values.now ++ (stamps.now ++ rest.now) }
{
    put_at(flat, 0, values);
    put_at(flat, 32, stamps);
    put_at(flat, 64, rest);
}
