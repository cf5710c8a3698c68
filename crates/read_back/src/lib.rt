// Read-back: the operation records and the calls of a row list that passes the chain check. Document 01: "Read-back writes one operation
// record for each live row and five numbers for each call". Assumes nothing.
#![tactic(auto)]

pub mod rows;

ghost use Rattle.std.specs.Prelude.{◌≡◌};
ghost use Rattle.read_back.specs.ReadBack.{read_back_numbers, read_back_refusal_numbers, ReadDone, counts_after};
ghost use Rattle.read_back.specs.declared.ReadBackRefusal.TheVariants.{Chain};

use answer::{Answer, accept, refuse};
use chain::ChainRefusal;
use chain::check::check;

// How many operation records and calls are read.
#[derive(Clone, Copy)]
pub struct Counts {
    pub ops: usize,
    pub calls: usize,
}

// Why a row list is not read back.
#[derive(Clone, Copy)]
pub enum ReadBackRefusal {
    // 7 and 13 to 18: what the chain check refuses, as it refuses it
    Chain { why: ChainRefusal },
    // 9: a buffer shorter than the result
    BufferShort,
}

impl From<ChainRefusal> for ReadBackRefusal {
    ghost from_gives = { λ why refusal. refusal ≡ Chain why };

    fn from(why: ChainRefusal) -> ReadBackRefusal {
        ReadBackRefusal::Chain { why }
    }
}

// Checks the chain, then 9; then writes the records into `ops` and the calls into `calls`. A refusal writes nothing.
#[tactic(auto, using(crate::proofs::Read::passed_fit))]
pub fn read_back(
    gap: u64,
    rows: &[u64],
    ops: &mut [u64],
    calls: &mut [u64],
) -> Result<Counts, ReadBackRefusal>
    ensures { ReadDone gap rows.now ops.old calls.old (read_back_numbers result) ops.new calls.new }
{
    check(gap, rows)?;
    if !rows::holds(rows, ops.len(), calls.len()) {
        return Err(ReadBackRefusal::BufferShort);
    }
    Ok(rows::write(rows, ops, calls))
}

// Document 01's number and place of a refusal; the value is the residue's index for 16.
impl From<ReadBackRefusal> for Answer {
    ghost from_gives = { λ why a. a ≡ read_back_refusal_numbers why };

    fn from(why: ReadBackRefusal) -> Answer {
        match why {
            ReadBackRefusal::Chain { why } => why.into(),
            ReadBackRefusal::BufferShort => refuse(9, 0),
        }
    }
}

// The same of an answer, whose value is the number of operation records. `counts` gets the numbers of operation records and calls; a refusal
// writes nothing.
pub fn read_back_numbers(found: Result<Counts, ReadBackRefusal>, counts: &mut [u64; 2]) -> Answer
    ensures answer { result ≡ (read_back_numbers found).answer }
    ensures counts { counts.new ≡ counts_after (read_back_numbers found) counts.old }
{
    match found {
        Ok(read) => {
            *counts = [read.ops as u64, read.calls as u64];
            accept(read.ops as u64)
        }
        Err(why) => why.into(),
    }
}
