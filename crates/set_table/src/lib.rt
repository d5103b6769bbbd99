// The tables that are filled from the left as a pattern's atoms are read: what each position holds, and its credit.
#![tactic(auto)]

ghost use Rattle.std.specs.Prelude.{◌≡◌, false, ℕ, ◌+◌, ◌<◌, ◌≤◌};
ghost use Rattle.letters.specs.LetterSet.{has_letter, set_at};
ghost use Rattle.set_table.specs.Tables.{Writes, Repeats};

use copies::Stretch;
use letters::LetterSet;

// Entry i is position i's. Credits are raised by 9, so that they have no sign.
#[derive(Drop)]
pub struct Tables {
    pub sets: [LetterSet; 61],
    pub credits: [u8; 61],
}

// No letters for any position.
pub fn empty() -> [LetterSet; 61]
    ensures { (i c : ℕ) → has_letter (set_at result i) c ≡ false }
{
    let none = LetterSet::empty();
    [none; 61]
}

impl Tables {
    // Entry i becomes the set and the credit.
    pub fn write(&mut self, i: usize, set: LetterSet, credit: u8)
        requires { i < 61 }
        ensures { Writes i set credit self.old self.new }
    {
        self.sets[i] = set;
        self.credits[i] = credit;
    }

    // Entry i + by becomes entry i, for each i of the stretch, in rising order.
    pub fn repeat(&mut self, stretch: Stretch)
        requires { stretch.to + stretch.by ≤ 61 }
        ensures { Repeats stretch.from stretch.to stretch.by self.old self.new }
    {
        copies::entries(&mut self.sets, stretch);
        copies::entries(&mut self.credits, stretch);
    }
}
