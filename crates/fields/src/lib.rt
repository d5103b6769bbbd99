// The fields of a line, put into a slice from byte `at` on: each function gives the place after what it put.
#![tactic(auto)]

ghost use Rattle.std.specs.Prelude.{◌≡◌, [], ◌∷◌, ◌++◌, ◌+◌, ◌≤◌, ◌<◌, length};
ghost use Rattle.vetting.specs.Answers.{number_of};
ghost use Rattle.fields.specs.Fields.{decimal, fields, word, outcome_line, Puts};

use pattern::Refusal;
use vetting::{Verdict, Vetted};

// The line of what vetting gave: `refused` and the refusal, or the verdict's word and the number of positions.
pub fn put_result(number: u64, outcome: Result<Vetted, Refusal>, out: &mut [u8], at: usize) -> usize
    requires { (number < 100000) × (at + 18 ≤ length out.old) }
    ensures puts { Puts (outcome_line number outcome) out.old at out.new result }
    ensures upper_bound { result ≤ at + 18 }
{
    match outcome {
        Err(refusal) => put_fields(number, b"refused", refusal.number(), out, at),
        Ok(vetted) => put_fields(number, word(vetted.verdict), vetted.positions, out, at),
    }
}

// The word of a verdict.
fn word(verdict: Verdict) -> &'static [u8]
    ensures word { result.now ≡ word (number_of verdict) }
    ensures short { length result.now ≤ 7 }
{
    match verdict {
        Verdict::Single => b"single",
        Verdict::Steady { .. } => b"steady",
        Verdict::Runaway { .. } => b"runaway",
    }
}

// A text, and the byte `end` after it.
pub fn put(text: &[u8], end: u8, out: &mut [u8], at: usize) -> usize
    requires { at + length text.now < length out.old }
    ensures { Puts (text.now ++ (end ∷ [])) out.old at out.new result }
{
    let to = at + text.len();
    out[at..to].copy_from_slice(text);
    out[to] = end;
    to + 1
}

// A line of its three fields, of at most 18 bytes where its number has at most five digits and its word seven letters.
fn put_fields(number: u64, word: &[u8], last: u8, out: &mut [u8], at: usize) -> usize
    requires { (number < 100000) × (length word.now ≤ 7) × (at + 18 ≤ length out.old) }
    ensures puts { Puts (fields number word.now last) out.old at out.new result }
    ensures upper_bound { result ≤ at + 18 }
{
    let a = put_number(number, b' ', out, at);
    let b = put(word, b' ', out, a);
    put_number(u64::from(last), b'\n', out, b)
}

// A number in decimal, and the byte `end` after it.
fn put_number(n: u64, end: u8, out: &mut [u8], at: usize) -> usize
    requires { at + length (decimal n) < length out.old }
    ensures { Puts (decimal n ++ (end ∷ [])) out.old at out.new result }
{
    let mut digits = [0u8; 20];
    let k = io::decimal(n, &mut digits);
    put(&digits[..k], end, out, at)
}
