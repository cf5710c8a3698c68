// Internal to the workspace, not open to callers: the text that `callcheck` prints. Document 01: "It prints, for each live row: word, row,
// stamp, src, dst, remaining count, width, first, end, kind; then verdict and row count." Assumes nothing but what each `requires` says.
ghost use Rattle.std.specs.Prelude.{◌≡◌, ℕ, ◌+◌, ◌*◌, ◌≤◌, List, [], ◌++◌, length, take};
ghost use Rattle.call.specs.Ops.{OP_WIDTH};
ghost use Rattle.text.specs.RowLines.{decimal_text, fields_text, kind_text, row_text, rows_text, passed_text, refused_text};

use call::OP_WIDTH;
use std::marker::Model;

// What is printed so far: at most `N` bytes.
#[derive(Drop)]
pub struct Printer<const N: usize> {
    bytes: [u8; N],
    len: usize,
}

// Clauses see the text.
impl<const N: usize> Model for Printer<N> {
    ghost Value = { List ℕ };

    ghost view = { λ p. take p.len p.bytes };

    ghost invariant = { λ p. p.len ≤ N };
}

impl<const N: usize> Printer<N> {
    pub fn new() -> Self
        ensures { result ≡ [] }
    {
        Printer {
            bytes: [0; N],
            len: 0,
        }
    }

    pub fn text(&self) -> &[u8]
        ensures value { result.now ≡ self.now }
        ensures upper_bound { length result.now ≤ N }
    {
        &self.bytes[..self.len]
    }

    // The text as it is.
    pub fn put(&mut self, text: &[u8])
        requires { length self.old + length text.now ≤ N }
        ensures { self.new ≡ self.old ++ text.now }
    {
        let end = self.len + text.len();
        let bytes = &mut self.bytes[..];
        bytes[self.len..end].copy_from_slice(text);
        self.len = end;
    }

    // A number in base ten: at most 20 digits.
    #[tactic(auto, using(crate::proofs::Digits::digits_text))]
    pub fn put_number(&mut self, n: u64)
        requires { length self.old + 20 ≤ N }
        ensures value { self.new ≡ self.old ++ decimal_text n }
        ensures upper_bound { length self.new ≤ length self.old + 20 }
    {
        let mut digits = [0u8; 20];
        let k = io::decimal(n, &mut digits);
        self.put(&digits[..k]);
    }

    // Each number behind a tab.
    #[tactic(auto, using(crate::proofs::Written::fields_turns))]
    pub fn put_fields(&mut self, numbers: &[u64])
        requires { length self.old + 21 * length numbers.now ≤ N }
        ensures value { self.new ≡ self.old ++ fields_text numbers.now }
        ensures upper_bound { length self.new ≤ length self.old + 21 * length numbers.now }
    {
        for &n in numbers {
            self.put(b"\t");
            self.put_number(n);
        }
    }

    // The word of a kind behind a tab, and the newline.
    #[tactic(auto, unfolding(crate::specs::RowLines::kind_text))]
    fn put_kind(&mut self, kind: u64)
        requires { length self.old + 7 ≤ N }
        ensures value { self.new ≡ self.old ++ kind_text kind }
        ensures upper_bound { length self.new ≤ length self.old + 7 }
    {
        match kind {
            0 => self.put(b"\tcopy\n"),
            1 => self.put(b"\tset\n"),
            _ => self.put(b"\twrite\n"),
        }
    }

    // The line of row `k`, whose operation record is lent.
    #[tactic(auto, using(crate::proofs::Written::row_written))]
    pub fn put_row(&mut self, k: u64, op: &[u64])
        requires { (length self.old + 178 ≤ N) × (OP_WIDTH ≡ length op.now) }
        ensures value { self.new ≡ self.old ++ row_text k op.now }
        ensures upper_bound { length self.new ≤ length self.old + 178 }
    {
        self.put(b"row");
        self.put_fields(&[k]);
        self.put_fields(&op[..7]);
        self.put_kind(op[7]);
    }

    // The lines of the first `rows` operation records.
    #[tactic(auto, using(crate::proofs::Written::rows_turns))]
    pub fn put_rows(&mut self, rows: usize, ops: &[u64])
        requires { (length self.old + 178 * rows ≤ N) × (OP_WIDTH * rows ≤ length ops.now) }
        ensures value { self.new ≡ self.old ++ rows_text 0 rows ops.now }
        ensures upper_bound { length self.new ≤ length self.old + 178 * rows }
    {
        for k in 0..rows {
            self.put_row(k as u64, &ops[OP_WIDTH * k..OP_WIDTH * (k + 1)]);
        }
    }

    // The verdict's line: `passed` and the row count.
    #[tactic(auto, using(std::proofs::Common::append_assoc), unfolding(crate::specs::RowLines::passed_text))]
    pub fn put_passed(&mut self, rows: u64)
        requires { length self.old + 28 ≤ N }
        ensures value { self.new ≡ self.old ++ passed_text rows }
        ensures upper_bound { length self.new ≤ length self.old + 28 }
    {
        self.put(b"passed");
        self.put_fields(&[rows]);
        self.put(b"\n");
    }

    // A refusal's line: `refused`, its number and the line that is refused.
    #[tactic(auto, using(std::proofs::Common::append_assoc), unfolding(crate::specs::RowLines::refused_text))]
    pub fn put_refused(&mut self, number: u64, line: u64)
        requires { length self.old + 50 ≤ N }
        ensures value { self.new ≡ self.old ++ refused_text number line }
        ensures upper_bound { length self.new ≤ length self.old + 50 }
    {
        self.put(b"refused");
        self.put_fields(&[number, line]);
        self.put(b"\n");
    }
}
