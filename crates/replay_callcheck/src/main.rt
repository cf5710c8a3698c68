// Replays recorded inputs of the program `callcheck` through `callcheck_text::answer`. A question is 0, then the input's length and its bytes;
// 0, 0 and the output's length are printed, then the output as a list. The file stdout has the oracle's answers.
#![tactic(auto, using(replay::proofs::Ends::end_then))]

ghost use Rattle.std.specs.Prelude.{◌<◌, length, IfSome};
ghost use Rattle.replay.specs.Questions.{IsEnd};

use replay::Questions;

// The input is in a buffer of 4,096 bytes, as `callcheck` has it.
fn ask(questions: &mut Questions) -> Option<()>
    ensures end { IsEnd questions.old.rest.now questions.new.rest.now }
    ensures fewer { IfSome result (λ _. length questions.new.rest.now < length questions.old.rest.now) }
{
    questions.number()?;
    let mut buffer = io::buffer();
    let input = replay::load(questions.list()?, &mut buffer);
    let mut out = [0u8; 8192];
    let k = callcheck_text::answer(input, &mut out);
    replay::print_answer(answer::accept(k as u64));
    replay::print_list(&out[..k]);
    Some(())
}

fn main() {
    replay::ask_all(&mut [0u64; 16384], ask);
}
