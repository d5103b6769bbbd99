// The static library for C: each call is that of `marking` under its name there, with the same clauses.
#![tactic(auto)]

ghost use Rattle.std.specs.Prelude.{◌≢◌};
ghost use Rattle.marking.specs.ForC.{MarkForC, VetForC, VetAlone};
ghost use Rattle.marking.specs.Packing.{vet_unpacked};

// Vets a pattern. The result has the refusal in bits 0 to 7, the verdict in 8 to 15, the number of positions in 16 to 23, the
// lengths in 24 to 35, 36 to 47 and 48 to 59.
#[unsafe(no_mangle)]
pub extern "C" fn marking_vet_in(pattern: &[u8], evidence: &mut [u8], scratch: &mut [u16]) -> u64
    ensures { VetForC pattern.now evidence.old evidence.new scratch.old scratch.new result }
{
    marking::marking_vet_in(pattern, evidence, scratch)
}

// The same with scratch of its own, so that it never declines for want of it.
#[unsafe(no_mangle)]
pub extern "C" fn marking_vet(pattern: &[u8], evidence: &mut [u8]) -> u64
    ensures says { VetAlone pattern.now evidence.old evidence.new result }
    ensures enough_scratch { (vet_unpacked result).refusal ≢ 2 }
{
    marking::marking_vet(pattern, evidence)
}

// Marks an answer. The result has the mark in bits 0 to 31, as two's complement, the refusal in 32 to 39 and the letters taken in
// 40 to 55. The count is stored behind the pointer where there is no refusal; at a refusal nothing is read or stored there.
#[unsafe(no_mangle)]
pub extern "C" fn marking_mark(pattern: &[u8], answer: &[u8], count: &mut u64) -> u64
    ensures { MarkForC pattern.now answer.now count.old count.new result }
{
    marking::marking_mark(pattern, answer, count)
}
