// Replays recorded questions on the chain check, read-back and the row check through the exported functions. A question is the function's
// number and its parameters, a list as its length and its numbers; the answer's three numbers are printed, then each lent list afterwards.
// The file stdout has the oracle's answers.
#![tactic(auto, using(replay::proofs::Ends::end_then))]

ghost use Rattle.std.specs.Prelude.{◌<◌, length, IfSome};
ghost use Rattle.replay.specs.Questions.{IsEnd};

use replay::Questions;

// chain_check: the gap, the rows.
fn ask_check(questions: &mut Questions) -> Option<()>
    ensures end { IsEnd questions.old.rest.now questions.new.rest.now }
    ensures fewer { IfSome result (λ _. length questions.new.rest.now < length questions.old.rest.now) }
{
    let gap = questions.number()?;
    let rows = questions.list()?;
    replay::print_answer(exports::chain_check(gap, rows));
    Some(())
}

// read_back: the gap, the rows, the two lists, the counts.
fn ask_read(questions: &mut Questions) -> Option<()>
    ensures end { IsEnd questions.old.rest.now questions.new.rest.now }
    ensures fewer { IfSome result (λ _. length questions.new.rest.now < length questions.old.rest.now) }
{
    let gap = questions.number()?;
    let rows = questions.list()?;
    let mut first = [0u64; 512];
    let ops = replay::load(questions.list()?, &mut first);
    let mut second = [0u64; 512];
    let calls = replay::load(questions.list()?, &mut second);
    let mut counts = questions.array()?;
    replay::print_answer(exports::read_back(gap, rows, ops, calls, &mut counts));
    replay::print_list(ops);
    replay::print_list(calls);
    replay::print_list(&counts);
    Some(())
}

// row_check: the gap, the row.
fn ask_row(questions: &mut Questions) -> Option<()>
    ensures end { IsEnd questions.old.rest.now questions.new.rest.now }
    ensures fewer { IfSome result (λ _. length questions.new.rest.now < length questions.old.rest.now) }
{
    let gap = questions.number()?;
    let row = questions.list()?;
    replay::print_answer(exports::row_check(gap, row));
    Some(())
}

// One question: 0 chain_check, 1 read_back, 2 row_check.
fn ask(questions: &mut Questions) -> Option<()>
    ensures end { IsEnd questions.old.rest.now questions.new.rest.now }
    ensures fewer { IfSome result (λ _. length questions.new.rest.now < length questions.old.rest.now) }
{
    match questions.number()? {
        0 => ask_check(questions),
        1 => ask_read(questions),
        _ => ask_row(questions),
    }
}

fn main() {
    replay::ask_all(&mut [0u64; 16384], ask);
}
