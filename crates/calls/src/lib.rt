// The two calls: vet a pattern, mark an answer. Neither has a `requires`: each tests its input itself, and what it gives is
// said for all input. Each lends reading a table of 61 * 61 numbers, in which it counts links.
#![tactic(auto)]

ghost use Rattle.calls.specs.Marking.{MarkSays};
ghost use Rattle.calls.specs.Vetting.{VetSays};

use marks::Marked;
use pattern::Refusal;
use vetting::Vetted;

// What vetting is lent at least: bytes of evidence, numbers of scratch.
const LEAST_EVIDENCE: usize = 4096;

const LEAST_SCRATCH: usize = 4096;

// The longest answer, in bytes.
const LONGEST_ANSWER: usize = 4096;

// Vets a pattern. The evidence gets the texts that show the verdict, and beyond them keeps its old bytes. Scratch may hold anything
// before, and its first 4,096 numbers do after; those beyond are not touched. At a refusal both keep what they hold.
pub fn vet_pattern(
    pattern: &[u8],
    evidence: &mut [u8],
    scratch: &mut [u16],
) -> Result<Vetted, Refusal>
    ensures { VetSays pattern.now evidence.old evidence.new scratch.old scratch.new result }
{
    if evidence.len() < LEAST_EVIDENCE {
        return Err(Refusal::ShortEvidence);
    }
    if scratch.len() < LEAST_SCRATCH {
        return Err(Refusal::ShortScratch);
    }
    let mut more = [0u8; 3721];
    let built = reader::read(pattern, &mut more)?;
    Ok(vetting::vet(built, &more, evidence, &mut scratch[..LEAST_SCRATCH]))
}

// Marks an answer by a pattern.
pub fn mark_answer(pattern: &[u8], answer: &[u8]) -> Result<Marked, Refusal>
    ensures { MarkSays pattern.now answer.now result }
{
    let mut more = [0u8; 3721];
    let built = reader::read(pattern, &mut more)?;
    let long = answer.len() > LONGEST_ANSWER;
    if long {
        return Err(Refusal::LongAnswer);
    }
    if !alphabet::all_letters(answer) {
        return Err(Refusal::AnswerNotLetters);
    }
    Ok(marks::mark(built, &more, answer))
}
