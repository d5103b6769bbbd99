// The letters, of ISO 8859-1. What depends on which codes are letters stands here, and in the words of a set (`letters`, `ranges`).
#![tactic(auto)]

ghost use Rattle.std.specs.Prelude.{◌≡◌, ◌&&◌, ◌<◌, ◌≤◌, leb, length};
ghost use Rattle.alphabet.specs.Alphabet.{is_letter, all_letters};
ghost use Rattle.alphabet.specs.Flipped.{Flipped};

// Is the code a letter: one of the 191 from 32 to 126 and from 160 to 255.
pub fn is_letter(code: u8) -> bool
    ensures { result ≡ is_letter code }
{
    matches!(code, 32..=126 | 160..=255)
}

// Is every byte a letter: so it is of none. All are looked at, whatever is found, since the loop is quicker without a way out.
pub fn all_letters(s: &[u8]) -> bool
    ensures { result ≡ all_letters s.now }
{
    s.iter().fold(true, |good, &code| good & is_letter(code))
}

// In a table by codes, the members of a mask are flipped in the entry of each letter: what was in is out, and what was out is in.
pub fn flip_letters(table: &mut [u64], mask: u64)
    requires { 256 ≤ length table.old }
    ensures { Flipped is_letter mask table.old table.new }
{
    flip(&mut *table, 32, 126, mask);
    flip(&mut *table, 160, 255, mask);
}

// The same in the entries from `first` to `last`.
fn flip(table: &mut [u64], first: usize, last: usize, mask: u64)
    requires { (first ≤ last) × (last < 256) × (256 ≤ length table.old) }
    ensures { Flipped (λ c. leb first c && leb c last) mask table.old table.new }
{
    for entry in &mut table[first..=last] {
        *entry ^= mask;
    }
}
