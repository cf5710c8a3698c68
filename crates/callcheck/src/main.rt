// The program `callcheck`: reads calls on standard input, and writes their rows and the verdict, or the first refusal. Document 01: "Chain
// check and read-back (added)", last paragraph. It reads the first 4,096 bytes, and the first 2,995 of an input of any length decide its
// output (`PrefixDecides` of callcheck_text): line 1 with its newline has at most 25 bytes or is refused, a call line at most 90, each
// accepted call has a row, and with 32 rows there is no room for another. The output has at most 32 lines of 178 bytes and the verdict's
// line.
#![tactic(auto)]

fn main() {
    let mut input = io::buffer();
    let n = io::read_full(0, &mut input);
    let mut out = [0u8; 8192];
    let k = callcheck_text::answer(&input[..n], &mut out);
    io::write_all(1, &out[0..k]);
}
