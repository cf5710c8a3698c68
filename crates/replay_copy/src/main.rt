// Replays recorded questions on the copy table through the exported functions. A question is the function's number and its parameters, a
// list as its length and its numbers; the answer's three numbers are printed, then each lent list afterwards. The file stdout has the
// oracle's answers.
#![tactic(auto, using(replay::proofs::Ends::end_then))]

ghost use Rattle.std.specs.Prelude.{◌<◌, length, IfSome};
ghost use Rattle.replay.specs.Questions.{IsEnd};

use replay::Questions;

// generate_copy_trace: the operation records, the table.
fn ask_trace(questions: &mut Questions) -> Option<()>
    ensures end { IsEnd questions.old.rest.now questions.new.rest.now }
    ensures fewer { IfSome result (λ _. length questions.new.rest.now < length questions.old.rest.now) }
{
    let ops = questions.list()?;
    let mut buffer = [0u64; 1024];
    let table = replay::load(questions.list()?, &mut buffer);
    replay::print_answer(exports::generate_copy_trace(ops, table));
    replay::print_list(table);
    Some(())
}

// copy_residue: the gap, the row, the residue's number.
fn ask_residue(questions: &mut Questions) -> Option<()>
    ensures end { IsEnd questions.old.rest.now questions.new.rest.now }
    ensures fewer { IfSome result (λ _. length questions.new.rest.now < length questions.old.rest.now) }
{
    let gap = questions.number()?;
    let row = questions.list()?;
    let number = questions.number()?;
    replay::print_answer(exports::copy_residue(gap, row, number));
    Some(())
}

// add_pair: three operands, conditions, the row, three numbers.
fn ask_pair(questions: &mut Questions) -> Option<()>
    ensures end { IsEnd questions.old.rest.now questions.new.rest.now }
    ensures fewer { IfSome result (λ _. length questions.new.rest.now < length questions.old.rest.now) }
{
    let lhs = questions.list()?;
    let rhs = questions.list()?;
    let sum = questions.list()?;
    let conditions = questions.list()?;
    let row = questions.list()?;
    let mut out = questions.array()?;
    replay::print_answer(exports::add_pair(lhs, rhs, sum, conditions, row, &mut out));
    replay::print_list(&out);
    Some(())
}

// One question: 0 generate_copy_trace, 1 copy_residue, 2 add_pair.
fn ask(questions: &mut Questions) -> Option<()>
    ensures end { IsEnd questions.old.rest.now questions.new.rest.now }
    ensures fewer { IfSome result (λ _. length questions.new.rest.now < length questions.old.rest.now) }
{
    match questions.number()? {
        0 => ask_trace(questions),
        1 => ask_residue(questions),
        _ => ask_pair(questions),
    }
}

fn main() {
    replay::ask_all(&mut [0u64; 8192], ask);
}
