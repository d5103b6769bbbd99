// What the program `vet` writes, line by line: a run through an input starts with `Run::new`, and each call of `next_line` puts a line,
// until it gives `None`. No public function has a `requires`. That all lines together are the output is `run_is_output` of
// proofs/Written.antt.
#![tactic(auto)]

ghost use Rattle.std.specs.Prelude.{◌≡◌, ◌≤◌, ◌<◌, length, IfSome};
ghost use Rattle.io.specs.Counts.{IsPrefixLen};
ghost use Rattle.fields.specs.Fields.{Puts};
ghost use Rattle.lines.specs.Lines.{line_of, EndsAt, start, NextLine};

// The longest input whose patterns are vetted, in bytes.
const LONGEST_INPUT: usize = 65536;

// What a line takes at most, in bytes.
const LONGEST_LINE: usize = 18;

// Where a run through an input stands: the byte from which and the number with which it goes on.
#[derive(Clone, Copy, Debug, PartialEq, Eq)]
pub struct Run {
    pub from: usize,
    pub number: u64,
}

impl Run {
    // A run before its first line: at the input's first byte, with number 1.
    pub fn new() -> Run
        ensures { result ≡ start }
    {
        Run { from: 0, number: 1 }
    }

    // Puts the next line at the start of `out`, and gives its length. The run then goes on after the pattern that the line is for, and
    // the byte 10 that ends it; an input of more than 65,536 bytes has one line, `input too long`. Nothing is put and the run stays
    // where it is if it is at the input's end or past it, if its number has more than five digits, or if `out` has fewer than 18 bytes.
    pub fn next_line(&mut self, input: &[u8], out: &mut [u8]) -> Option<usize>
        ensures prefix_len { IfSome result (λ len. IsPrefixLen len out.new) }
        ensures next_line { NextLine input.now self.old out.old out.new self.new result }
    {
        if self.from >= input.len() || self.number >= 100000 || out.len() < LONGEST_LINE {
            return None;
        }
        let number = self.number;
        self.number += 1;
        if input.len() > LONGEST_INPUT {
            self.from = input.len();
            return Some(fields::put(b"input too long", b'\n', out, 0));
        }
        let end = pattern_end(input, self.from);
        let pattern = &input[self.from..end];
        self.from = end + 1;
        Some(pattern_line(number, pattern, out))
    }
}

// Where the pattern ends that begins at byte `from`: at the next byte 10, or at the input's end.
fn pattern_end(input: &[u8], from: usize) -> usize
    requires { from < length input.now }
    ensures { EndsAt input.now from result }
{
    let rest = &input[from..];
    let len = rest.iter().position(|b| *b == b'\n').unwrap_or(rest.len());
    from + len
}

// The line of a pattern, put at the start of `out`, and its length.
fn pattern_line(number: u64, pattern: &[u8], out: &mut [u8]) -> usize
    requires { (number < 100000) × (18 ≤ length out.old) }
    ensures puts { Puts (line_of number pattern.now) out.old 0 out.new result }
    ensures short { result ≤ 18 }
{
    let mut evidence = [0u8; 4096];
    let mut scratch = [0u16; 4096];
    let vetted = marking::vet_pattern(pattern, &mut evidence, &mut scratch);
    fields::put_result(number, vetted, out, 0)
}
