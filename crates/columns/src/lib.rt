// What marking looks up at each letter: for each position the states before it, and for each letter the positions that
// hold it. Both tables are a built pattern's, turned round: a row is walked member by member, and its number put into each entry.
// `holders_of` is the second of any sets.
#![tactic(auto)]

ghost use Rattle.std.specs.Prelude.{◌≡◌, true, ◌&&◌, ℕ, ◌<◌, ◌+◌, ◌^◌, length, get_or, ltb};
ghost use Rattle.bits.specs.Bits.{has_bit};
ghost use Rattle.letters.specs.LetterSet.{has_letter, set_at, OnlyLetters};
ghost use Rattle.columns.specs.Tables.{Columns, Entered};

use bits::NumberSet;
use graph::Built;
use letters::DELETE;

// For each position the states that it may follow, from the positions that may follow each state.
pub fn states_before(b: &Built) -> [u64; 61]
    requires { (u : ℕ) → get_or b.now.follow u 0 < 2 ^ 61 }
    ensures { Columns (λ u i. has_bit (get_or b.now.follow u 0) i) (b.now.positions + 1) result }
{
    let mut table = [0u64; 61];
    for (u, &row) in b.follow[..b.positions + 1].iter().enumerate() {
        enter(&mut table, row, u);
    }
    table
}

// For each letter the positions that hold it, and for any other code none, as the sets hold letters only. A position with a wide set is
// entered for the letters that it lacks, and in the end such positions are flipped in the entry of each letter.
pub fn holders_of_letters(b: &Built) -> [u64; 256]
    requires { OnlyLetters b.now.letters }
    ensures { Columns (λ i c. has_letter (set_at b.now.letters i) c) (b.now.positions + 1) result }
{
    let mut table = [0u64; 256];
    let mut wide: u64 = 0;
    for (i, &set) in b.letters[..b.positions + 1].iter().enumerate() {
        let entered = if set.is_wide() {
            wide = bits::with(wide, i);
            set.complement()
        } else {
            set
        };
        enter(&mut table, entered, i);
    }
    if wide != 0 {
        alphabet::flip_letters(&mut table, wide);
    }
    table
}

// For each code the positions whose sets have it, whatever the sets hold: for each letter, and for 127.
pub fn holders_of(b: &Built) -> [u64; 256]
    ensures { Columns (λ i c. has_letter (set_at b.now.letters i) c) (b.now.positions + 1) result }
{
    let mut cut = *b;
    cut.letters = letters::letters_of(&b.letters);
    let mut table = holders_of_letters(&cut);
    table[DELETE as usize] = holders_of_code(b, DELETE);
    table
}

// The positions whose sets have a code.
fn holders_of_code(b: &Built, code: u8) -> u64
    ensures { (i : ℕ) → has_bit result i ≡ (ltb i (b.now.positions + 1) && has_letter (set_at b.now.letters i) code) }
{
    let mut holders = 0;
    for i in 0..=b.positions {
        holders = bits::union_if(b.letters[i].has(code), holders, bits::only(i));
    }
    holders
}

// j put into the entries of a set.
pub fn enter<S: NumberSet>(table: &mut [u64], members: S, j: usize)
    requires { ((x : ℕ) → S.has members x ≡ true → x < length table.old) × (j < 64) }
    ensures { Entered (S.has members) j table.old table.new }
{
    for x in bits::members(members) {
        table[x] = bits::with(table[x], j);
    }
}
