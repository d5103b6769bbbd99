// The calls with one number for the result, as C gets it, which `marking_c` exports; and for clients in Rattle the two calls of `calls`, with
// the types of what they give. No call has a `requires`: each tests its input itself, and what it gives is said for all input.
#![tactic(auto)]

ghost use Rattle.std.specs.Prelude.{◌≡◌, ◌≢◌, IfOk};
ghost use Rattle.marking.specs.ForC.{MarkForC, VetForC, VetAlone};
ghost use Rattle.marking.specs.Packing.{ShortTexts, verdict_packed, vet_fields_of, vet_packed, vet_unpacked};

pub use calls::{mark_answer, vet_pattern};
pub use marks::Marked;
pub use pattern::Refusal;
pub use vetting::{Verdict, Vetted};

// Vets a pattern. The result has the refusal in bits 0 to 7, the verdict in 8 to 15, the number of positions in 16 to 23, the
// lengths in 24 to 35, 36 to 47 and 48 to 59.
pub fn marking_vet_in(pattern: &[u8], evidence: &mut [u8], scratch: &mut [u16]) -> u64
    ensures { VetForC pattern.now evidence.old evidence.new scratch.old scratch.new result }
{
    packed(calls::vet_pattern(pattern, evidence, scratch))
}

// The same with scratch of its own, so that it never declines for want of it.
pub fn marking_vet(pattern: &[u8], evidence: &mut [u8]) -> u64
    ensures says { VetAlone pattern.now evidence.old evidence.new result }
    ensures enough_scratch { (vet_unpacked result).refusal ≢ 2 }
{
    let mut scratch = [0u16; 4096];
    marking_vet_in(pattern, evidence, &mut scratch)
}

// Marks an answer. The result has the mark in bits 0 to 31, as two's complement, the refusal in 32 to 39 and the letters taken in
// 40 to 55. The count is stored behind the pointer where there is no refusal; at a refusal nothing is read or stored there.
pub fn marking_mark(pattern: &[u8], answer: &[u8], count: &mut u64) -> u64
    ensures { MarkForC pattern.now answer.now count.old count.new result }
{
    match calls::mark_answer(pattern, answer) {
        Ok(marked) => {
            *count = marked.count;
            let bits = marked.mark.cast_unsigned();
            u64::from(marked.taken) * 0x100_0000_0000 + u64::from(bits)
        }
        Err(refusal) => u64::from(refusal.number()) * 0x1_0000_0000,
    }
}

// A result of vetting as one number.
fn packed(outcome: Result<Vetted, Refusal>) -> u64
    requires { IfOk outcome (λ v. ShortTexts v.verdict) }
    ensures { result ≡ vet_packed (vet_fields_of outcome) }
{
    match outcome {
        Ok(vetted) => u64::from(vetted.positions) * 0x1_0000 + verdict_bits(vetted.verdict),
        Err(refusal) => u64::from(refusal.number()),
    }
}

// A verdict and the lengths of its texts, at their places in that number.
fn verdict_bits(verdict: Verdict) -> u64
    requires { ShortTexts verdict }
    ensures { result ≡ verdict_packed verdict }
{
    match verdict {
        Verdict::Single => 0,
        Verdict::Steady { text } => 0x100 + u64::from(text) * 0x100_0000,
        Verdict::Runaway { x, y, z } => {
            2 * 0x100
                + u64::from(x) * 0x100_0000
                + u64::from(y) * 0x10_0000_0000
                + u64::from(z) * 0x1_0000_0000_0000
        }
    }
}
