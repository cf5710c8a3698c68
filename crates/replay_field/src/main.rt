// Replays recorded questions to the field functions through their exported form: each is the function (0 add, 1 subtract, 2 multiply) and
// two numbers, and the answer's three numbers are printed. The file stdout has the oracle's answers.
#![tactic(auto, using(replay::proofs::Ends::end_then))]

ghost use Rattle.std.specs.Prelude.{◌<◌, length, IfSome};
ghost use Rattle.replay.specs.Questions.{IsEnd};

use replay::Questions;

fn ask(questions: &mut Questions) -> Option<()>
    ensures end { IsEnd questions.old.rest.now questions.new.rest.now }
    ensures fewer { IfSome result (λ _. length questions.new.rest.now < length questions.old.rest.now) }
{
    let [function, a, b] = questions.numbers::<3>()?;
    replay::print_answer(match function {
        0 => exports::field_add(a, b),
        1 => exports::field_sub(a, b),
        _ => exports::field_mul(a, b),
    });
    Some(())
}

fn main() {
    replay::ask_all(&mut [0u64; 8192], ask);
}
