// The tables that a search goes by, in rows of a word for each position: what may come next, which a built pattern has, and what
// shares a letter with it, and where two links or more lead from a state, which are made here.
#![tactic(auto)]

ghost use Rattle.std.specs.Prelude.{◌≡◌, true, false, ◌&&◌, ℕ, ◌+◌, ◌*◌, ◌≤◌, ltb, get_or};
ghost use Rattle.bits.specs.Bits.{has_bit};
ghost use Rattle.alphabet.specs.Alphabet.{some_letter, is_letter};
ghost use Rattle.letters.specs.LetterSet.{has_letter, OnlyLetters};
ghost use Rattle.shares.specs.Tables.{Within, is_doubled, NoneDoubled, held};

use graph::Built;
use letters::LetterSet;

// The numbers up to `positions` whose sets share a letter with that of a, for every such a, in rows, as the sets hold letters only. Each
// pair is looked at once: what row a gets of the numbers up to a, these get of a.
pub fn share_rows_of_letters(b: &Built) -> [u64; 61]
    requires { OnlyLetters b.now.letters }
    ensures { (a c : ℕ) → a ≤ b.now.positions → c ≤ b.now.positions → has_bit (get_or result a 0) c ≡ some_letter (held b.now.letters a c) }
{
    let mut rows = [0u64; 61];
    for a in 0..=b.positions {
        let row = share_row(&b.letters, a);
        columns::enter(&mut rows, row, a);
        rows[a] = row;
    }
    rows
}

// The same, whatever the sets hold: 127 is no letter that they share.
pub fn share_rows(b: &Built) -> [u64; 61]
    ensures { (a c : ℕ) → a ≤ b.now.positions → c ≤ b.now.positions → has_bit (get_or result a 0) c ≡ some_letter (held b.now.letters a c) }
{
    let mut cut = *b;
    cut.letters = letters::letters_of(&b.letters);
    share_rows_of_letters(&cut)
}

// Of the numbers up to a, those whose sets share a letter with that of a.
fn share_row(sets: &[LetterSet; 61], a: usize) -> u64
    requires { OnlyLetters sets.now × (a ≤ 60) }
    ensures { (j : ℕ) → has_bit result j ≡ (ltb j (a + 1) && some_letter (held sets.now a j)) }
{
    let mut row = 0;
    for b in 0..=a {
        row = bits::union_if(share(sets[a], sets[b]), row, bits::only(b));
    }
    row
}

// Is there a letter that both sets hold.
fn share(s: LetterSet, t: LetterSet) -> bool
    requires { (c : ℕ) → has_letter s c ≡ true → is_letter c ≡ true }
    ensures { result ≡ some_letter (λ c. has_letter s c && has_letter t c) }
{
    !s.intersection(t).is_empty()
}

// The positions to which two links or more lead from u, for every state u up to `positions`, in rows: those of its row of `follow`
// with a number above 0 in the table of links beyond the first. Where `doubled` says that there are none, nothing is looked up.
pub fn double_rows(b: &Built, more: &[u8; 3721]) -> [u64; 61]
    requires { Within b.now.follow × (b.now.doubled ≡ false → NoneDoubled b.now.follow more.now) }
    ensures { (u i : ℕ) → u ≤ b.now.positions → has_bit (get_or result u 0) i ≡ is_doubled b.now.follow more.now u i }
{
    let mut rows = [0u64; 61];
    if !b.doubled {
        return rows;
    }
    for u in 0..=b.positions {
        rows[u] = double_row(b.follow[u], more, u);
    }
    rows
}

// Of a set of positions that may come next at u, those with a number above 0 in its row of the table.
fn double_row(set: u64, more: &[u8; 3721], u: usize) -> u64
    requires { ((i : ℕ) → has_bit set i ≡ true → i ≤ 60) × (u ≤ 60) }
    ensures { (i : ℕ) → has_bit result i ≡ (has_bit set i && ltb 0 (get_or more.now (61 * u + i) 0)) }
{
    let mut doubled = 0;
    for i in bits::members(set) {
        doubled = bits::union_if(0 < more[61 * u + i], doubled, bits::only(i));
    }
    doubled
}
