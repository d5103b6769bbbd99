// The graph of a pattern's positions as marking and vetting get it: the built pattern. What a reading, a count and a mark
// are in such a graph is said in specs/.
#![tactic(auto)]

ghost use Rattle.std.specs.Prelude.{◌≤◌};

use letters::LetterSet;

// A pattern of up to 60 positions, by value. Entry i of each array is position i's, and entry 0 that of the state before any
// letter: `follow[i]` is the set of positions that may come next (for 0 the firsts), `letters[i]` is what position i holds (for 0
// nothing) and `credits[i]` what it earns, raised by 9, so that it has no sign (for 0 nothing, which is 9). `lasts` is the set of
// states at which a reading may end, with 0 where the pattern can be empty. Numbers past `positions` are in no set, and hold and
// earn nothing. How many links lead from a state to a position does not fit in here: those beyond the first are counted in a
// table beside it, and `doubled` says whether there is any.
#[derive(Clone, Copy)]
pub struct Built {
    pub positions: usize,
    pub follow: [u64; 61],
    pub doubled: bool,
    pub lasts: u64,
    pub letters: [LetterSet; 61],
    pub credits: [u8; 61],
    ghost few: { positions ≤ 60 },
}
