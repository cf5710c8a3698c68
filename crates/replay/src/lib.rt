// Internal to the workspace, not open to callers: what the programs that replay recorded answers share, questions read from a text and
// answers printed. A recorded question is a line of numbers, first that of the function, and its answer is printed one number to a line.
// Assumes nothing but what each `requires` says.
#![tactic(auto)]

ghost use Rattle.std.specs.Prelude.{ℕ, ◌≡◌, ◌<◌, ◌+◌, ◌%◌, min, [], ◌∷◌, ◌++◌, ◌↔◌, length, IsNone, MatchOption, IfNone, IfSome};
ghost use Rattle.io.specs.Counts.{IsPrefixLen};
ghost use Rattle.replay.specs.Questions.{first_list, after_list, IsEnd};

use answer::Answer;

// The recorded numbers that are still to be read. What finds too few of them gives `None` and leaves them.
#[derive(Drop)]
pub struct Questions<'a> {
    pub rest: &'a [u64],
}

impl<'a> Questions<'a> {
    // The next number.
    pub fn number(&mut self) -> Option<u64>
        ensures read { MatchOption result (self.old.rest.now ≡ []) (λ n. self.old.rest.now ≡ n ∷ self.new.rest.now) }
        ensures none { IfNone result (self.new.rest.now ≡ self.old.rest.now) }
        ensures end { IsEnd self.old.rest.now self.new.rest.now }
        ensures fewer { IfSome result (λ _. length self.new.rest.now < length self.old.rest.now) }
    {
        let (first, rest) = self.rest.split_first()?;
        self.rest = rest;
        Some(*first)
    }

    // The next N numbers.
    pub fn numbers<const N: usize>(&mut self) -> Option<[u64; N]>
        ensures read { MatchOption result (length self.old.rest.now < N) (λ numbers. self.old.rest.now ≡ numbers ++ self.new.rest.now) }
        ensures none { IfNone result (self.new.rest.now ≡ self.old.rest.now) }
        ensures end { IsEnd self.old.rest.now self.new.rest.now }
        ensures fewer { IfSome result (λ _. length self.new.rest.now + N ≡ length self.old.rest.now) }
    {
        let (first, rest) = self.rest.split_first_chunk::<N>()?;
        self.rest = rest;
        Some(*first)
    }

    // The next list: its length, and then its numbers, or all that are left where they are too few.
    pub fn list(&mut self) -> Option<&'a [u64]>
        ensures read { IfSome result (λ list. list.now ≡ first_list self.old.rest.now) }
        ensures left { self.new.rest.now ≡ after_list self.old.rest.now }
        ensures none { IsNone result ↔ (self.old.rest.now ≡ []) }
        ensures end { IsEnd self.old.rest.now self.new.rest.now }
        ensures fewer { IfSome result (λ _. length self.new.rest.now < length self.old.rest.now) }
    {
        let size = self.number()?;
        let left = self.rest.len() as u64;
        let (list, rest) = self.rest.split_at(size.min(left) as usize);
        self.rest = rest;
        Some(list)
    }

    // The next list in an array, as far as it has room, and zeros after it.
    pub fn array<const N: usize>(&mut self) -> Option<[u64; N]>
        ensures left { self.new.rest.now ≡ after_list self.old.rest.now }
        ensures none { IsNone result ↔ (self.old.rest.now ≡ []) }
        ensures end { IsEnd self.old.rest.now self.new.rest.now }
        ensures fewer { IfSome result (λ _. length self.new.rest.now < length self.old.rest.now) }
    {
        let list = self.list()?;
        let mut array = [0; N];
        load(list, &mut array);
        Some(array)
    }
}

// What a cell of a lent list holds of a recorded number.
pub trait Cell: Copy {
    ghost cell: { ℕ → Self };

    fn of(number: u64) -> Self
        ensures { result ≡ cell number };
}

impl Cell for u64 {
    ghost cell = { λ n. n };

    fn of(number: u64) -> u64 {
        number
    }
}

impl Cell for u8 {
    ghost cell = { λ n. n % 256 };

    fn of(number: u64) -> u8 {
        (number % 256) as u8
    }
}

// Copies a list to the start of a buffer, as far as it has room, and answers that part of it.
pub fn load<'b, T: Cell>(list: &[u64], buffer: &'b mut [T]) -> &'b mut [T]
    ensures { length result.now ≡ min (length list.now) (length buffer.old) }
{
    let n = list.len().min(buffer.len());
    let part = &mut buffer[..n];
    for (cell, number) in part.iter_mut().zip(list) {
        *cell = T::of(*number);
    }
    part
}

// value with one more decimal digit, or 0 where that has more than 64 bits.
fn with_digit(value: u64, digit: u8) -> u64 {
    let tens = value.checked_mul(10);
    tens.and_then(|tens| tens.checked_add(u64::from(digit.wrapping_sub(b'0'))))
        .unwrap_or(0)
}

// The numbers of a text, each a run of digits, at the start of out, as far as it has room; answers how many there are.
pub fn numbers_of(text: &[u8], out: &mut [u64]) -> usize
    ensures { IsPrefixLen result out.new }
{
    let mut count = 0;
    let runs = text.split(|b| !b.is_ascii_digit());
    for digits in runs.filter(|run| !run.is_empty()) {
        if out.len() <= count {
            break;
        }
        out[count] = digits
            .iter()
            .fold(0, |value, digit| with_digit(value, *digit));
        count += 1;
    }
    count
}

// Reads the numbers on standard input into a buffer and puts their questions to `ask` one after the other, to the end or to one that lacks
// a part. Each question has a number at least, so there are no more questions than numbers.
pub fn ask_all<F: Fn(&mut Questions) -> Option<()>>(buffer: &mut [u64], ask: F)
    requires { F.IsAlwaysCallable ask }
{
    let mut text = io::large_buffer();
    let n = io::read_full(0, &mut text);
    let count = numbers_of(&text[..n], buffer);
    let mut questions = Questions {
        rest: &buffer[..count],
    };
    for _ in 0..count {
        if ask(&mut questions).is_none() {
            return;
        }
    }
}

// Prints a number and a line end.
pub fn print(n: u64) {
    io::print_decimal(1, n);
    io::write_all(1, b"\n");
}

// Prints an answer's three numbers.
pub fn print_answer(a: Answer) {
    print(a.number);
    print(a.place);
    print(a.value);
}

// Prints a list's length and its numbers.
pub fn print_list<T: Copy + Into<u64>>(list: &[T]) {
    print(list.len() as u64);
    for x in list {
        print((*x).into());
    }
}
