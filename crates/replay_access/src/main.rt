// Replays recorded questions on the access tables through the exported functions. A question is the function's number and its parameters, a
// list as its length and its numbers; the answer's three numbers are printed, then each lent list afterwards. The file stdout has the
// oracle's answers.
#![tactic(auto, using(replay::proofs::Ends::end_then))]

ghost use Rattle.std.specs.Prelude.{◌<◌, length, IfSome};
ghost use Rattle.replay.specs.Questions.{IsEnd};

use replay::Questions;

// A maker, by the function's number, or the lookups: the records, the table or the pairs.
fn ask_table(function: u64, questions: &mut Questions) -> Option<()>
    ensures end { IsEnd questions.old.rest.now questions.new.rest.now }
    ensures fewer { IfSome result (λ _. length questions.new.rest.now < length questions.old.rest.now) }
{
    let records = questions.list()?;
    let mut buffer = [0u64; 1024];
    let table = replay::load(questions.list()?, &mut buffer);
    replay::print_answer(match function {
        0 => exports::generate_memw_trace(records, table),
        1 => exports::generate_memw_aligned_trace(records, table),
        2 => exports::generate_memw_register_trace(records, table),
        _ => exports::register_lookups(records, table),
    });
    replay::print_list(table);
    Some(())
}

// A residue, by the function's number: the row, the residue's number.
fn ask_residue(function: u64, questions: &mut Questions) -> Option<()>
    ensures end { IsEnd questions.old.rest.now questions.new.rest.now }
    ensures fewer { IfSome result (λ _. length questions.new.rest.now < length questions.old.rest.now) }
{
    let row = questions.list()?;
    let number = questions.number()?;
    replay::print_answer(match function {
        3 => exports::memw_residue(row, number),
        4 => exports::memw_aligned_residue(row, number),
        _ => exports::memw_register_residue(row, number),
    });
    Some(())
}

// route_accesses: the access records, the three lists, the counts.
fn ask_route(questions: &mut Questions) -> Option<()>
    ensures end { IsEnd questions.old.rest.now questions.new.rest.now }
    ensures fewer { IfSome result (λ _. length questions.new.rest.now < length questions.old.rest.now) }
{
    let accesses = questions.list()?;
    let mut first = [0u64; 512];
    let register = replay::load(questions.list()?, &mut first);
    let mut second = [0u64; 512];
    let aligned = replay::load(questions.list()?, &mut second);
    let mut third = [0u64; 512];
    let general = replay::load(questions.list()?, &mut third);
    let mut counts = questions.array()?;
    replay::print_answer(exports::route_accesses(
        accesses,
        register,
        aligned,
        general,
        &mut counts,
    ));
    replay::print_list(register);
    replay::print_list(aligned);
    replay::print_list(general);
    replay::print_list(&counts);
    Some(())
}

fn word(x: u64) -> u32 {
    (x % 4294967296) as u32
}

// push_reg_access: eight numbers, the record.
fn ask_push(questions: &mut Questions) -> Option<()>
    ensures end { IsEnd questions.old.rest.now questions.new.rest.now }
    ensures fewer { IfSome result (λ _. length questions.new.rest.now < length questions.old.rest.now) }
{
    let [reg_addr, val0, val1, old0, old1, stamp, old_stamp, is_read] = questions.numbers::<8>()?;
    let mut record = questions.array()?;
    replay::print_answer(exports::flat_access::push_reg_access(
        reg_addr,
        word(val0),
        word(val1),
        word(old0),
        word(old1),
        stamp,
        old_stamp,
        is_read,
        &mut record,
    ));
    replay::print_list(&record);
    Some(())
}

// new_register_state: the entry point, the stack top, the state.
fn ask_start(questions: &mut Questions) -> Option<()>
    ensures end { IsEnd questions.old.rest.now questions.new.rest.now }
    ensures fewer { IfSome result (λ _. length questions.new.rest.now < length questions.old.rest.now) }
{
    let [entry_point, stack_top] = questions.numbers::<2>()?;
    let mut state = questions.array()?;
    replay::print_answer(exports::flat_registers::new_register_state(
        entry_point,
        stack_top,
        &mut state,
    ));
    replay::print_list(&state);
    Some(())
}

// collect_copy_register_ops: the call, the state, the records.
fn ask_step(questions: &mut Questions) -> Option<()>
    ensures end { IsEnd questions.old.rest.now questions.new.rest.now }
    ensures fewer { IfSome result (λ _. length questions.new.rest.now < length questions.old.rest.now) }
{
    let [kind, stamp, src, dst, count] = questions.numbers::<5>()?;
    let mut state = questions.array()?;
    let mut records = questions.array()?;
    replay::print_answer(exports::flat_registers::collect_copy_register_ops(
        kind,
        stamp,
        src,
        dst,
        count,
        &mut state,
        &mut records,
    ));
    replay::print_list(&state);
    replay::print_list(&records);
    Some(())
}

// One question: 0 to 2 the makers of the general, aligned and register table, 3 to 5 their residues, 6 route_accesses, 7
// push_reg_access, 8 new_register_state, 9 collect_copy_register_ops, 10 register_lookups.
fn ask(questions: &mut Questions) -> Option<()>
    ensures end { IsEnd questions.old.rest.now questions.new.rest.now }
    ensures fewer { IfSome result (λ _. length questions.new.rest.now < length questions.old.rest.now) }
{
    match questions.number()? {
        function @ 3..=5 => ask_residue(function, questions),
        6 => ask_route(questions),
        7 => ask_push(questions),
        8 => ask_start(questions),
        9 => ask_step(questions),
        function => ask_table(function, questions),
    }
}

fn main() {
    replay::ask_all(&mut [0u64; 16384], ask);
}
