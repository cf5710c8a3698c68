// Replays recorded calls of the expansion, loads and joins through the exported functions. A question is the function's number and its
// parameters, a list as its length and its numbers; the answer's three numbers are printed, then each lent list afterwards. A window past the
// first edges is not written out: its cells are numbered, and those that a call changed are printed last. The file stdout has the oracle's
// answers.
#![tactic(auto, using(replay::proofs::Ends::end_then))]

ghost use Rattle.std.specs.Prelude.{◌<◌, length, IfSome};
ghost use Rattle.replay.specs.Questions.{IsEnd};

use answer::Answer;
use replay::Questions;

fn answer_of(
    call: [u64; 6],
    bytes: &mut [u8],
    stamps: &mut [u64],
    ops: &mut [u64],
    accesses: &mut [u64],
    counts: &mut [u64; 2],
) -> Answer {
    let [kind, stamp, src, dst, count, gap] = call;
    exports::flat_expansion::collect_copy_ops(
        kind, stamp, src, dst, count, gap, bytes, stamps, ops, accesses, counts,
    )
}

// collect_copy_ops: kind, timestamp, src, dst, count, gap, then bytes, stamps, operation records, access records and counts.
fn ask_expansion(questions: &mut Questions) -> Option<()>
    ensures end { IsEnd questions.old.rest.now questions.new.rest.now }
    ensures fewer { IfSome result (λ _. length questions.new.rest.now < length questions.old.rest.now) }
{
    let call = questions.numbers()?;
    let mut first = [0u8; 512];
    let bytes = replay::load(questions.list()?, &mut first);
    let mut second = [0u64; 512];
    let stamps = replay::load(questions.list()?, &mut second);
    let mut third = [0u64; 512];
    let ops = replay::load(questions.list()?, &mut third);
    let mut fourth = [0u64; 512];
    let accesses = replay::load(questions.list()?, &mut fourth);
    let mut counts = questions.array()?;
    replay::print_answer(answer_of(call, bytes, stamps, ops, accesses, &mut counts));
    replay::print_list(bytes);
    replay::print_list(stamps);
    replay::print_list(ops);
    replay::print_list(accesses);
    replay::print_list(&counts);
    Some(())
}

// Cell i of a numbered window has this byte and the stamp i.
fn byte_of(i: usize) -> u8 {
    (i % 251) as u8
}

fn number_cells(bytes: &mut [u8], stamps: &mut [u64]) {
    for (i, (byte, stamp)) in bytes.iter_mut().zip(stamps).enumerate() {
        *byte = byte_of(i);
        *stamp = i as u64;
    }
}

// Place, byte and stamp of each cell that is no longer as it was numbered.
fn print_changed(bytes: &[u8], stamps: &[u64]) {
    for (i, (byte, stamp)) in bytes.iter().zip(stamps).enumerate() {
        let place = i as u64;
        if *byte != byte_of(i) || *stamp != place {
            replay::print(place);
            replay::print(u64::from(*byte));
            replay::print(*stamp);
        }
    }
}

// Nothing is asked or printed where there is no room for so many cells.
fn expand_numbered(call: [u64; 6], cells: u64, ops: &mut [u64], accesses: &mut [u64]) {
    if 8400 < cells {
        return;
    }
    let n = cells as usize;
    let mut first = [0u8; 8400];
    let bytes = &mut first[..n];
    let mut second = [0u64; 8400];
    let stamps = &mut second[..n];
    number_cells(bytes, stamps);
    let mut counts = [0u64; 2];
    replay::print_answer(answer_of(call, bytes, stamps, ops, accesses, &mut counts));
    replay::print_list(ops);
    replay::print_list(accesses);
    replay::print_list(&counts);
    print_changed(bytes, stamps);
}

// collect_copy_ops over numbered cells: kind, timestamp, src, dst, count, gap and the number of cells, then operation and access records.
fn ask_numbered(questions: &mut Questions) -> Option<()>
    ensures end { IsEnd questions.old.rest.now questions.new.rest.now }
    ensures fewer { IfSome result (λ _. length questions.new.rest.now < length questions.old.rest.now) }
{
    let call = questions.numbers()?;
    let cells = questions.number()?;
    let mut first = [0u64; 512];
    let ops = replay::load(questions.list()?, &mut first);
    let mut second = [0u64; 1024];
    let accesses = replay::load(questions.list()?, &mut second);
    expand_numbered(call, cells, ops, accesses);
    Some(())
}

// generate_load: s, the number of calls, then the list that is lent.
fn ask_load(questions: &mut Questions) -> Option<()>
    ensures end { IsEnd questions.old.rest.now questions.new.rest.now }
    ensures fewer { IfSome result (λ _. length questions.new.rest.now < length questions.old.rest.now) }
{
    let [s, calls] = questions.numbers::<2>()?;
    let mut buffer = [0u64; 512];
    let out = replay::load(questions.list()?, &mut buffer);
    replay::print_answer(exports::generate_load(s, calls, out));
    replay::print_list(out);
    Some(())
}

// join_calls: the two lists, then the list that is lent.
fn ask_join(questions: &mut Questions) -> Option<()>
    ensures end { IsEnd questions.old.rest.now questions.new.rest.now }
    ensures fewer { IfSome result (λ _. length questions.new.rest.now < length questions.old.rest.now) }
{
    let first = questions.list()?;
    let second = questions.list()?;
    let mut buffer = [0u64; 512];
    let joined = replay::load(questions.list()?, &mut buffer);
    replay::print_answer(exports::join_calls(first, second, joined));
    replay::print_list(joined);
    Some(())
}

// One question: 0 collect_copy_ops, 1 generate_load, 2 collect_copy_ops over numbered cells, 3 join_calls.
fn ask(questions: &mut Questions) -> Option<()>
    ensures end { IsEnd questions.old.rest.now questions.new.rest.now }
    ensures fewer { IfSome result (λ _. length questions.new.rest.now < length questions.old.rest.now) }
{
    match questions.number()? {
        0 => ask_expansion(questions),
        1 => ask_load(questions),
        3 => ask_join(questions),
        _ => ask_numbered(questions),
    }
}

fn main() {
    replay::ask_all(&mut [0u64; 16384], ask);
}
