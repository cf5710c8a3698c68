// The static library that a C or Rust program links: each function of `exports` under its C name, with the same clauses. A slice passes as
// a pointer and a length, an array behind a reference as a pointer. Assumes nothing.
#![tactic(auto)]

ghost use Rattle.std.specs.Prelude.{◌≡◌, [], ◌∷◌, eqb};
ghost use Rattle.field.specs.Answers.{add_answer, sub_answer, mul_answer, field_numbers};
ghost use Rattle.load.specs.Load.{LoadDone};
ghost use Rattle.call_join.specs.Join.{JoinDone};
ghost use Rattle.records.specs.Records.{LIMIT};
ghost use Rattle.routing.specs.Routing.{lists};
ghost use Rattle.lookups.specs.Lookups.{LookupsDone};
ghost use Rattle.memw.specs.Tables.{MemwDone};
ghost use Rattle.copy_row.specs.Trace.{CopyDone};
ghost use Rattle.access.specs.declared.AccessTable.TheVariants.{General, Aligned, Register};
ghost use Rattle.copy_residues.specs.Answers.{residue_answer, residue_numbers};
ghost use Rattle.add_pair.specs.Answers.{AddPairDone};
ghost use Rattle.memw_residues.specs.Answers.{memw_residue_answer, memw_residue_numbers};
ghost use Rattle.row_check.specs.RowAnswer.{row_answer, row_numbers};
ghost use Rattle.chain.specs.Chain.{chain_answer, chain_numbers};
ghost use Rattle.exports.specs.Exports.{FlatRouted, FlatRead};
ghost use Rattle.reg_access.specs.RegAccess.{built, pushed};
ghost use Rattle.exports.specs.FlatAccess.{FlatPushed};
ghost use Rattle.expansion.specs.Tries.{lent, try_of};
ghost use Rattle.exports.specs.FlatExpansion.{FlatDone};
ghost use Rattle.answer.specs.Numbers.{accepted};
ghost use Rattle.registers.specs.Step.{new_state};
ghost use Rattle.exports.specs.FlatRegisters.{state_numbers, FlatStepped};

use answer::Answer;

// a + b modulo p, or 14.
#[unsafe(no_mangle)]
pub extern "C" fn field_add(a: u64, b: u64) -> Answer
    ensures answer { result ≡ field_numbers (add_answer a b) }
{
    exports::field_add(a, b)
}

// a - b modulo p, or 14.
#[unsafe(no_mangle)]
pub extern "C" fn field_sub(a: u64, b: u64) -> Answer
    ensures answer { result ≡ field_numbers (sub_answer a b) }
{
    exports::field_sub(a, b)
}

// a * b modulo p, or 14.
#[unsafe(no_mangle)]
pub extern "C" fn field_mul(a: u64, b: u64) -> Answer
    ensures answer { result ≡ field_numbers (mul_answer a b) }
{
    exports::field_mul(a, b)
}

// The first `calls` calls of the load of `s`, or 19, 9; the value is the number of calls.
#[unsafe(no_mangle)]
pub extern "C" fn generate_load(s: u64, calls: u64, out: &mut [u64]) -> Answer
    ensures { LoadDone s calls out.old result out.new }
{
    exports::generate_load(s, calls, out)
}

// Two lists of calls made into one, or 8, 10, 20, 9; the value is the number of calls.
#[unsafe(no_mangle)]
pub extern "C" fn join_calls(first: &[u64], second: &[u64], joined: &mut [u64]) -> Answer
    ensures { JoinDone LIMIT 8 first.now second.now joined.old result joined.new }
{
    exports::join_calls(first, second, joined)
}

// The copy table of the operation records, or 8, 10, 9; the value is the number of rows.
#[unsafe(no_mangle)]
pub extern "C" fn generate_copy_trace(ops: &[u64], table: &mut [u64]) -> Answer
    ensures { CopyDone LIMIT 8 ops.now table.old result table.new }
{
    exports::generate_copy_trace(ops, table)
}

// Residue `number` of a copy row under a gap, or 7, 12, 13, 14.
#[unsafe(no_mangle)]
pub extern "C" fn copy_residue(gap: u64, row: &[u64], number: u64) -> Answer
    ensures answer { result ≡ residue_numbers (residue_answer gap row.now number) }
{
    exports::copy_residue(gap, row, number)
}

// The general table of the access records, or 8, 10, 9; the value is the number of rows.
#[unsafe(no_mangle)]
pub extern "C" fn generate_memw_trace(records: &[u64], table: &mut [u64]) -> Answer
    ensures { MemwDone General LIMIT 8 records.now table.old result table.new }
{
    exports::generate_memw_trace(records, table)
}

// The aligned table of the access records, or 8, 10, 9.
#[unsafe(no_mangle)]
pub extern "C" fn generate_memw_aligned_trace(records: &[u64], table: &mut [u64]) -> Answer
    ensures { MemwDone Aligned LIMIT 8 records.now table.old result table.new }
{
    exports::generate_memw_aligned_trace(records, table)
}

// The register table of the register records, or 8, 10, 9.
#[unsafe(no_mangle)]
pub extern "C" fn generate_memw_register_trace(records: &[u64], table: &mut [u64]) -> Answer
    ensures { MemwDone Register LIMIT 8 records.now table.old result table.new }
{
    exports::generate_memw_register_trace(records, table)
}

// Residue `number` of a row of the general table, or 12, 13, 14.
#[unsafe(no_mangle)]
pub extern "C" fn memw_residue(row: &[u64], number: u64) -> Answer
    ensures answer { result ≡ memw_residue_numbers (memw_residue_answer General row.now number) }
{
    exports::memw_residue(row, number)
}

// Residue `number` of a row of the aligned table, or 12, 13, 14.
#[unsafe(no_mangle)]
pub extern "C" fn memw_aligned_residue(row: &[u64], number: u64) -> Answer
    ensures answer { result ≡ memw_residue_numbers (memw_residue_answer Aligned row.now number) }
{
    exports::memw_aligned_residue(row, number)
}

// Residue `number` of a row of the register table, or 12, 13, 14.
#[unsafe(no_mangle)]
pub extern "C" fn memw_register_residue(row: &[u64], number: u64) -> Answer
    ensures answer { result ≡ memw_residue_numbers (memw_residue_answer Register row.now number) }
{
    exports::memw_register_residue(row, number)
}

// The row check of one copy row, with no neighbours, or 7, 13, 14, 15, 16; the value is 0.
#[unsafe(no_mangle)]
pub extern "C" fn row_check(gap: u64, row: &[u64]) -> Answer
    ensures answer { result ≡ row_numbers (row_answer gap row.now) }
{
    exports::row_check(gap, row)
}

// The chain check: how many rows passed, or 7, 13, then row by row 14 to 17, then 18.
#[unsafe(no_mangle)]
pub extern "C" fn chain_check(gap: u64, rows: &[u64]) -> Answer
    ensures answer { result ≡ chain_numbers (chain_answer gap rows.now) }
{
    exports::chain_check(gap, rows)
}

// Read-back of a row list, or the chain check's refusals, then 9; the value is the number of operation records, and `counts` has it and
// the number of calls.
#[unsafe(no_mangle)]
pub extern "C" fn read_back(
    gap: u64,
    rows: &[u64],
    ops: &mut [u64],
    calls: &mut [u64],
    counts: &mut [u64; 2],
) -> Answer
    ensures { FlatRead gap rows.now ops.old calls.old counts.old result
        ops.new calls.new counts.new }
{
    exports::read_back(gap, rows, ops, calls, counts)
}

// The access records routed into three lists, or 8, 10, 11, 9; the value is the number of records read, and `counts` has how many went
// to each list.
#[unsafe(no_mangle)]
pub extern "C" fn route_accesses(
    accesses: &[u64],
    register: &mut [u64],
    aligned: &mut [u64],
    general: &mut [u64],
    counts: &mut [u64; 3],
) -> Answer
    ensures { FlatRouted accesses.now (lists register.old aligned.old general.old)
        counts.old result (lists register.new aligned.new general.new) counts.new }
{
    exports::route_accesses(accesses, register, aligned, general, counts)
}

// The lookups of the access records, two bytes for each that goes to the register table, or 8, 10, 11, 9; the value is the number of pairs.
#[unsafe(no_mangle)]
pub extern "C" fn register_lookups(accesses: &[u64], lookups: &mut [u64]) -> Answer
    ensures { LookupsDone LIMIT 8 accesses.now lookups.old result lookups.new }
{
    exports::register_lookups(accesses, lookups)
}

// `emit_add_pair`'s two residues and `add_pair_carry_hi` of flat operands, or 10, 12, 13, 14.
#[unsafe(no_mangle)]
pub extern "C" fn add_pair(
    lhs: &[u64],
    rhs: &[u64],
    sum: &[u64],
    conditions: &[u64],
    row: &[u64],
    out: &mut [u64; 3],
) -> Answer
    ensures { AddPairDone lhs.now rhs.now sum.now conditions.now row.now
        out.old result out.new }
{
    exports::add_pair(lhs, rhs, sum, conditions, row, out)
}

// The route of the access of the register at `reg_addr`, or 10 for an `is_read` above 1, then 11; the record goes to `record`.
#[unsafe(no_mangle)]
pub extern "C" fn push_reg_access(
    reg_addr: u64,
    val0: u32,
    val1: u32,
    old0: u32,
    old1: u32,
    timestamp: u64,
    old_timestamp: u64,
    is_read: u64,
    record: &mut [u64; 29],
) -> Answer
    ensures { FlatPushed is_read
        (pushed (built reg_addr (val0 ∷ val1 ∷ []) (old0 ∷ old1 ∷ []) timestamp old_timestamp (eqb is_read 1)))
        «record».old result «record».new }
{
    exports::flat_access::push_reg_access(
        reg_addr,
        val0,
        val1,
        old0,
        old1,
        timestamp,
        old_timestamp,
        is_read,
        record,
    )
}

// Expands a call over a window, or 10 for a kind above 2, then 7, 8, 1, 3, 5, 2 and 9.
#[unsafe(no_mangle)]
pub extern "C" fn collect_copy_ops(
    kind: u64,
    timestamp: u64,
    src: u64,
    dst: u64,
    count: u64,
    gap: u64,
    bytes: &mut [u8],
    stamps: &mut [u64],
    ops: &mut [u64],
    accesses: &mut [u64],
    counts: &mut [u64; 2],
) -> Answer
    ensures { FlatDone gap (try_of (record { kind = kind; stamp = timestamp; src = src; dst = dst; count = count })
        (lent bytes.old stamps.old ops.old accesses.old)) counts.old result
        (lent bytes.new stamps.new ops.new accesses.new) counts.new }
{
    exports::flat_expansion::collect_copy_ops(
        kind, timestamp, src, dst, count, gap, bytes, stamps, ops, accesses, counts,
    )
}

// The state in which a program starts.
#[unsafe(no_mangle)]
pub extern "C" fn new_register_state(
    entry_point: u64,
    stack_top: u64,
    state: &mut [u64; 68],
) -> Answer
    ensures answer { result ≡ accepted 0 }
    ensures state { state.new ≡ state_numbers (new_state entry_point stack_top) }
{
    exports::flat_registers::new_register_state(entry_point, stack_top, state)
}

// The register step of a call: 10 for a kind above 2 or an index of 2^32 or more, then 4, 5, 6. A refusal writes nothing.
#[unsafe(no_mangle)]
pub extern "C" fn collect_copy_register_ops(
    kind: u64,
    timestamp: u64,
    src: u64,
    dst: u64,
    count: u64,
    state: &mut [u64; 68],
    records: &mut [u64; 116],
) -> Answer
    ensures { FlatStepped (record { kind = kind; stamp = timestamp; src = src; dst = dst; count = count })
        state.old records.old result state.new records.new }
{
    exports::flat_registers::collect_copy_register_ops(
        kind, timestamp, src, dst, count, state, records,
    )
}
