// Replays recorded questions through `round_trip::round_trip`. A question is 0, the gap, then the calls and the seven lent lists, each as
// its length and its numbers; the answer's number, place and value are printed, the rows and calls as a list of two, then each lent list
// afterwards. The file stdout has what the oracle's steps give, one after the other.
#![tactic(auto, using(replay::proofs::Ends::end_then))]

ghost use Rattle.std.specs.Prelude.{◌<◌, length, IfSome};
ghost use Rattle.replay.specs.Questions.{IsEnd};

use answer::Answer;
use replay::Questions;
use round_trip::{RoundTripRefusal, RoundTripped};

fn print_outcome(outcome: Result<RoundTripped, RoundTripRefusal>) {
    let (answer, counts) = match outcome {
        Ok(passed) => (
            answer::accept(passed.ops as u64),
            [passed.rows as u64, passed.calls as u64],
        ),
        Err(why) => (Answer::from(why), [0, 0]),
    };
    replay::print_answer(answer);
    replay::print_list(&counts);
}

// The gap, the calls, then the seven lists that are lent.
fn ask(questions: &mut Questions) -> Option<()>
    ensures end { IsEnd questions.old.rest.now questions.new.rest.now }
    ensures fewer { IfSome result (λ _. length questions.new.rest.now < length questions.old.rest.now) }
{
    let [_, gap] = questions.numbers::<2>()?;
    let calls = questions.list()?;
    let mut first = [0u8; 512];
    let bytes = replay::load(questions.list()?, &mut first);
    let mut second = [0u64; 512];
    let stamps = replay::load(questions.list()?, &mut second);
    let mut third = [0u64; 512];
    let ops = replay::load(questions.list()?, &mut third);
    let mut fourth = [0u64; 512];
    let accesses = replay::load(questions.list()?, &mut fourth);
    let mut fifth = [0u64; 1024];
    let table = replay::load(questions.list()?, &mut fifth);
    let mut sixth = [0u64; 512];
    let ops_back = replay::load(questions.list()?, &mut sixth);
    let mut seventh = [0u64; 512];
    let calls_back = replay::load(questions.list()?, &mut seventh);
    let gap = (gap % 4294967296) as u32;
    print_outcome(round_trip::round_trip(
        gap, calls, bytes, stamps, ops, accesses, table, ops_back, calls_back,
    ));
    replay::print_list(bytes);
    replay::print_list(stamps);
    replay::print_list(ops);
    replay::print_list(accesses);
    replay::print_list(table);
    replay::print_list(ops_back);
    replay::print_list(calls_back);
    Some(())
}

fn main() {
    replay::ask_all(&mut [0u64; 16384], ask);
}
