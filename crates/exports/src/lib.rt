// The functions that a Rust or C program links, by `exports_c`. Each is thin: it calls the entry that it is named for and hands
// its answer on in numbers. A slice passes as a pointer and a length, an array behind a reference as a pointer. Document 01: "callable
// from the Rust harness, on numbers and slices". Assumes nothing.
#![tactic(auto)]

pub mod flat_access;
pub mod flat_expansion;
pub mod flat_registers;

ghost use Rattle.std.specs.Prelude.{◌≡◌};
ghost use Rattle.field.specs.Answers.{add_answer, sub_answer, mul_answer, field_numbers};
ghost use Rattle.load.specs.Load.{LoadDone};
ghost use Rattle.call_join.specs.Join.{JoinDone};
ghost use Rattle.records.specs.Records.{LIMIT};
ghost use Rattle.routing.specs.Routing.{lists};
ghost use Rattle.lookups.specs.Lookups.{LookupsDone};
ghost use Rattle.memw.specs.Tables.{MemwDone};
ghost use Rattle.copy_row.specs.Trace.{CopyDone};
ghost use Rattle.access.specs.declared.AccessTable.TheVariants.{General, Aligned, Register};
ghost use Rattle.copy_residues.specs.Answers.{residue_answer, residue_numbers};
ghost use Rattle.add_pair.specs.Answers.{AddPairDone};
ghost use Rattle.memw_residues.specs.Answers.{memw_residue_answer, memw_residue_numbers};
ghost use Rattle.row_check.specs.RowAnswer.{row_answer, row_numbers};
ghost use Rattle.chain.specs.Chain.{chain_answer, chain_numbers};
ghost use Rattle.exports.specs.Exports.{FlatRouted, FlatRead};

use access::ACCESS_WIDTH;
use answer::Answer;
use records::tables::record_count;

// a + b modulo p, or 14.
pub fn field_add(a: u64, b: u64) -> Answer
    ensures answer { result ≡ field_numbers (add_answer a b) }
{
    answer::numbers(field::field_add(a, b))
}

// a - b modulo p, or 14.
pub fn field_sub(a: u64, b: u64) -> Answer
    ensures answer { result ≡ field_numbers (sub_answer a b) }
{
    answer::numbers(field::field_sub(a, b))
}

// a * b modulo p, or 14.
pub fn field_mul(a: u64, b: u64) -> Answer
    ensures answer { result ≡ field_numbers (mul_answer a b) }
{
    answer::numbers(field::field_mul(a, b))
}

// The first `calls` calls of the load of `s`, or 19, 9; the value is the number of calls.
pub fn generate_load(s: u64, calls: u64, out: &mut [u64]) -> Answer
    ensures { LoadDone s calls out.old result out.new }
{
    answer::numbers(load::generate_load(s, calls, out))
}

// Two lists of calls made into one, or 8, 10, 20, 9; the value is the number of calls.
pub fn join_calls(first: &[u64], second: &[u64], joined: &mut [u64]) -> Answer
    ensures { JoinDone LIMIT 8 first.now second.now joined.old result joined.new }
{
    call_join::numbers(8, call_join::join_calls(first, second, joined))
}

// The copy table of the operation records, or 8, 10, 9; the value is the number of rows.
pub fn generate_copy_trace(ops: &[u64], table: &mut [u64]) -> Answer
    ensures { CopyDone LIMIT 8 ops.now table.old result table.new }
{
    records::numbers(8, copy_row::generate_copy_trace(ops, table))
}

// Residue `number` of a copy row under a gap, or 7, 12, 13, 14.
pub fn copy_residue(gap: u64, row: &[u64], number: u64) -> Answer
    ensures answer { result ≡ residue_numbers (residue_answer gap row.now number) }
{
    answer::numbers(copy_residues::residue(gap, row, number))
}

// The general table of the access records, or 8, 10, 9; the value is the number of rows.
pub fn generate_memw_trace(records: &[u64], table: &mut [u64]) -> Answer
    ensures { MemwDone General LIMIT 8 records.now table.old result table.new }
{
    records::numbers(8, memw::generate_memw_trace(records, table))
}

// The aligned table of the access records, or 8, 10, 9.
pub fn generate_memw_aligned_trace(records: &[u64], table: &mut [u64]) -> Answer
    ensures { MemwDone Aligned LIMIT 8 records.now table.old result table.new }
{
    records::numbers(8, memw::generate_memw_aligned_trace(records, table))
}

// The register table of the register records, or 8, 10, 9.
pub fn generate_memw_register_trace(records: &[u64], table: &mut [u64]) -> Answer
    ensures { MemwDone Register LIMIT 8 records.now table.old result table.new }
{
    records::numbers(8, memw::generate_memw_register_trace(records, table))
}

// Residue `number` of a row of the general table, or 12, 13, 14.
pub fn memw_residue(row: &[u64], number: u64) -> Answer
    ensures answer { result ≡ memw_residue_numbers (memw_residue_answer General row.now number) }
{
    answer::numbers(memw_residues::memw_residue(row, number))
}

// Residue `number` of a row of the aligned table, or 12, 13, 14.
pub fn memw_aligned_residue(row: &[u64], number: u64) -> Answer
    ensures answer { result ≡ memw_residue_numbers (memw_residue_answer Aligned row.now number) }
{
    answer::numbers(memw_residues::memw_aligned_residue(row, number))
}

// Residue `number` of a row of the register table, or 12, 13, 14.
pub fn memw_register_residue(row: &[u64], number: u64) -> Answer
    ensures answer { result ≡ memw_residue_numbers (memw_residue_answer Register row.now number) }
{
    answer::numbers(memw_residues::memw_register_residue(row, number))
}

// The row check of one copy row, with no neighbours, or 7, 13, 14, 15, 16; the value is 0.
pub fn row_check(gap: u64, row: &[u64]) -> Answer
    ensures answer { result ≡ row_numbers (row_answer gap row.now) }
{
    row_check::row_numbers(row_check::row_check(gap, row))
}

// The chain check: how many rows passed, or 7, 13, then row by row 14 to 17, then 18.
pub fn chain_check(gap: u64, rows: &[u64]) -> Answer
    ensures answer { result ≡ chain_numbers (chain_answer gap rows.now) }
{
    answer::numbers(chain::chain_check(gap, rows))
}

// Read-back of a row list, or the chain check's refusals, then 9; the value is the number of operation records, and `counts` has it and
// the number of calls.
pub fn read_back(
    gap: u64,
    rows: &[u64],
    ops: &mut [u64],
    calls: &mut [u64],
    counts: &mut [u64; 2],
) -> Answer
    ensures { FlatRead gap rows.now ops.old calls.old counts.old result
        ops.new calls.new counts.new }
{
    read_back::read_back_numbers(read_back::read_back(gap, rows, ops, calls), counts)
}

// The access records routed into three lists, or 8, 10, 11, 9; the value is the number of records read, and `counts` has how many went
// to each list.
pub fn route_accesses(
    accesses: &[u64],
    register: &mut [u64],
    aligned: &mut [u64],
    general: &mut [u64],
    counts: &mut [u64; 3],
) -> Answer
    ensures { FlatRouted accesses.now (lists register.old aligned.old general.old)
        counts.old result (lists register.new aligned.new general.new) counts.new }
{
    match routing::route_accesses(accesses, register, aligned, general) {
        Ok(routed) => {
            *counts = [
                routed.register as u64,
                routed.aligned as u64,
                routed.general as u64,
            ];
            answer::accept(record_count(accesses, ACCESS_WIDTH) as u64)
        }
        Err(why) => routing::refusal_numbers(8, why),
    }
}

// The lookups of the access records, two bytes for each that goes to the register table, or 8, 10, 11, 9; the value is the number of pairs.
pub fn register_lookups(accesses: &[u64], lookups: &mut [u64]) -> Answer
    ensures { LookupsDone LIMIT 8 accesses.now lookups.old result lookups.new }
{
    lookups::numbers(8, lookups::register_lookups(accesses, lookups))
}

// `emit_add_pair`'s two residues and `add_pair_carry_hi` of flat operands, or 10, 12, 13, 14.
pub fn add_pair(
    lhs: &[u64],
    rhs: &[u64],
    sum: &[u64],
    conditions: &[u64],
    row: &[u64],
    out: &mut [u64; 3],
) -> Answer
    ensures { AddPairDone lhs.now rhs.now sum.now conditions.now row.now
        out.old result out.new }
{
    add_pair::numbers(add_pair::add_pair(lhs, rhs, sum, conditions, row, out))
}
