// Internal to the workspace, not open to callers: routing with the limit on the records as a parameter. One pass judges and counts the
// records, a second one writes them. Assumes nothing but what each `requires` says.
ghost use Rattle.std.specs.Prelude.{◌≡◌, true, ℕ, ◌^◌, ◌≤◌, ◌<◌};
ghost use Rattle.records.specs.Records.{record_count, record_at};
ghost use Rattle.access.specs.Access.{ACCESS_WIDTH, good_access};
ghost use Rattle.access.specs.declared.AccessTable.{AccessTable};
ghost use Rattle.routing.specs.Routing.{lists, rooms_of, route_answer, lists_after};
ghost use Rattle.routing.specs.Inner.{judged, table_by, with_one, Few, RoomFor, Holds, Put, Written};

use crate::RouteRefusal;
use access::{ACCESS_WIDTH, AccessTable, BASE_ADDRESS, REGISTER_WIDTH, good_access};
use classify::route::{address_fits, is_aligned_op, is_register_op, register_record};
use lists::slices;
use records::tables::{record_at, record_count};

// A number for each list: how many records went there, or how long it is.
#[derive(Clone, Copy)]
pub struct Counts {
    pub register: usize,
    pub aligned: usize,
    pub general: usize,
}

// Routes at most `limit` records.
#[tactic(auto, using(crate::proofs::Judging::lists_kept))]
pub fn route(
    limit: usize,
    accesses: &[u64],
    register: &mut [u64],
    aligned: &mut [u64],
    general: &mut [u64],
) -> Result<Counts, RouteRefusal>
    requires { limit ≤ 2 ^ 20 }
    ensures answer { result ≡ route_answer limit accesses.now
        (rooms_of (lists register.old aligned.old general.old)) }
    ensures lists { lists register.new aligned.new general.new
        ≡ lists_after accesses.now result (lists register.old aligned.old general.old) }
{
    let rooms = Counts {
        register: register.len(),
        aligned: aligned.len(),
        general: general.len(),
    };
    let counts = route_answer(limit, accesses, rooms)?;
    write_routes(accesses, register, aligned, general);
    Ok(counts)
}

// The answer for lent lists of so many numbers.
#[tactic(auto, using(crate::proofs::Judging::answer_over, crate::proofs::Judging::answer_refused, crate::proofs::Judging::answer_fits, crate::proofs::Judging::answer_short, crate::proofs::Judging::judged_few))]
fn route_answer(limit: usize, accesses: &[u64], rooms: Counts) -> Result<Counts, RouteRefusal>
    requires { limit ≤ 2 ^ 20 }
    ensures { result ≡ route_answer limit accesses.now rooms }
{
    let n = record_count(accesses, ACCESS_WIDTH);
    if limit < n {
        return Err(RouteRefusal::TooManyRecords);
    }
    let counts = judge(accesses, n)?;
    if (REGISTER_WIDTH * counts.register <= rooms.register)
        & ((ACCESS_WIDTH * counts.aligned <= rooms.aligned)
            & (ACCESS_WIDTH * counts.general <= rooms.general))
    {
        return Ok(counts);
    }
    Err(RouteRefusal::BufferShort)
}

// How many records go to each list, or the lowest record that is refused.
#[tactic(auto, using(access::proofs::Good::good_length))]
pub fn judge(accesses: &[u64], n: usize) -> Result<Counts, RouteRefusal>
    requires { (n ≡ record_count ACCESS_WIDTH accesses.now) × (n ≤ 2 ^ 20) }
    ensures { result ≡ judged accesses.now }
{
    let mut counts = Counts {
        register: 0,
        aligned: 0,
        general: 0,
    };
    for k in 0..n {
        let op = record_at(accesses, ACCESS_WIDTH, k);
        if !good_access(op) {
            return Err(RouteRefusal::BadRecord { place: k });
        }
        let to_register = is_register_op(op);
        let to_aligned = is_aligned_op(op);
        if to_register & !address_fits(AccessTable::Register, op[BASE_ADDRESS]) {
            return Err(RouteRefusal::BadAddress { place: k });
        }
        counts = one_more(to_register, to_aligned, counts);
    }
    Ok(counts)
}

// One record more for the table that the two tests lead to, each of the three counts without a branch.
#[tactic(auto, using(crate::proofs::Routes::counts_with_one))]
fn one_more(to_register: bool, to_aligned: bool, counts: Counts) -> Counts
    requires { Few counts }
    ensures { result ≡ with_one (table_by to_register to_aligned) counts }
{
    Counts {
        register: slices::one_more(to_register, counts.register),
        aligned: slices::one_more(to_aligned & !to_register, counts.aligned),
        general: slices::one_more(!(to_register | to_aligned), counts.general),
    }
}

// Writes every record behind those that went to the same list before.
fn write_routes(accesses: &[u64], register: &mut [u64], aligned: &mut [u64], general: &mut [u64])
    requires { (record_count ACCESS_WIDTH accesses.now ≤ 2 ^ 20)
        × ((k : ℕ) → k < record_count ACCESS_WIDTH accesses.now → good_access (record_at ACCESS_WIDTH accesses.now k) ≡ true)
        × ((t : AccessTable) → Holds t accesses.now (rooms_of (lists register.old aligned.old general.old))) }
    ensures { Written accesses.now (lists register.old aligned.old general.old)
        (lists register.new aligned.new general.new) }
{
    let n = record_count(accesses, ACCESS_WIDTH);
    let mut ends = Counts {
        register: 0,
        aligned: 0,
        general: 0,
    };
    for k in 0..n {
        let op = record_at(accesses, ACCESS_WIDTH, k);
        ends = put_access(op, ends, register, aligned, general);
    }
}

// Writes one record behind the `ends` that each list has. A record is copied as 29 numbers: with the length in the code, no call is made.
#[tactic(auto, using(access::proofs::Good::good_length))]
fn put_access(
    op: &[u64],
    ends: Counts,
    register: &mut [u64],
    aligned: &mut [u64],
    general: &mut [u64],
) -> Counts
    requires { (good_access op.now ≡ true) × Few ends
        × ((t : AccessTable) → RoomFor t op.now ends (rooms_of (lists register.old aligned.old general.old))) }
    ensures { Put op.now ends (lists register.old aligned.old general.old)
        (lists register.new aligned.new general.new) result }
{
    let to_register = is_register_op(op);
    let to_aligned = is_aligned_op(op);
    if to_register {
        let record = register_record(op);
        slices::put_at(register, REGISTER_WIDTH * ends.register, &record);
        return one_more(to_register, to_aligned, ends);
    }
    if to_aligned {
        slices::put_at(aligned, ACCESS_WIDTH * ends.aligned, &op[0..ACCESS_WIDTH]);
        return one_more(to_register, to_aligned, ends);
    }
    slices::put_at(general, ACCESS_WIDTH * ends.general, &op[0..ACCESS_WIDTH]);
    one_more(to_register, to_aligned, ends)
}
