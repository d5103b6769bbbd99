// The sets of the letters from one code to another, and of one letter alone.
#![tactic(auto)]

ghost use Rattle.std.specs.Prelude.{◌≡◌, ◌&&◌, ℕ, ◌<◌, ◌≤◌, ◌+◌, eqb, ltb, leb};
ghost use Rattle.alphabet.specs.Alphabet.{is_letter};
ghost use Rattle.bits.specs.Bits.{has_bit};
ghost use Rattle.letters.specs.LetterSet.{code_at, has_letter};

use letters::LetterSet;

// The lowest code that has a slot.
const FIRST: usize = 32;

// The letters from a to b, both among them: none where a is past b. Codes that are no letters are left out.
pub fn range(a: u8, b: u8) -> LetterSet
    ensures { (c : ℕ) → has_letter result c ≡ (is_letter c && (leb a c && leb c b)) }
{
    // one letter, which most items of a class are, is made with fewer steps
    if a == b {
        return only(a);
    }
    let from = slots_below(a as usize);
    let to = slots_below(b as usize + 1);
    LetterSet {
        low: word(from, to, 0),
        middle: word(from, to, 64) & letters::FULL_MIDDLE,
        high: word(from, to, 128),
    }
}

// The letter alone, and the empty set for a code that is no letter.
pub fn only(code: u8) -> LetterSet
    ensures { (c : ℕ) → has_letter result c ≡ (is_letter c && (leb code c && leb c code)) }
{
    if !alphabet::is_letter(code) {
        return LetterSet::empty();
    }
    let slot = letters::slot_of(code);
    LetterSet {
        low: bit(slot, 0),
        middle: bit(slot, 64),
        high: bit(slot, 128),
    }
}

// How many slots have a code below `code`.
fn slots_below(code: usize) -> usize
    ensures { (i : ℕ) → i < 192 → ltb i result ≡ ltb (code_at i) code }
{
    match code {
        0..128 => code.saturating_sub(FIRST),
        128..160 => 96,
        _ => code - 64,
    }
}

// The slots from `from` on that are below `to`, as bits of the word that holds the 64 slots from base on.
fn word(from: usize, to: usize, base: usize) -> u64
    ensures { (j : ℕ) → has_bit result j ≡ (ltb j 64 && (leb from (base + j) && ltb (base + j) to)) }
{
    bits::span(cut(from, base), cut(to, base))
}

// How many of the 64 slots from base on are below `slot`: none for a slot up to base, and all for one past them.
fn cut(slot: usize, base: usize) -> usize
    ensures { (result ≤ 64) × ((j : ℕ) → j < 64 → ltb j result ≡ ltb (base + j) slot) }
{
    slot.saturating_sub(base).min(64)
}

// The slot alone, as a bit of the word that holds the 64 slots from base on: none where it is another word's.
fn bit(slot: usize, base: usize) -> u64
    ensures { (j : ℕ) → j < 64 → has_bit result j ≡ eqb slot (base + j) }
{
    match slot.checked_sub(base) {
        Some(n) if n < 64 => bits::only(n),
        _ => 0,
    }
}
