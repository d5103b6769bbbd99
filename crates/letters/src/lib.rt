// Sets of letters. The contract of a set says of each code c, letter or not, whether the set has it, and only `lowest`, `rest` and
// `first_of_letters` ask that the set is not empty.
#![tactic(auto)]

ghost use Rattle.std.specs.Prelude.{◌≡◌, true, false, not, ◌&&◌, ◌||◌, ℕ, ◌<◌};
ghost use Rattle.basics.specs.Folds.{Less};
ghost use Rattle.alphabet.specs.Alphabet.{is_letter};
ghost use Rattle.letters.specs.LetterSet.{in_slot, has_slot, slot_of, code_at, has_letter, Some, LeastLetter, LettersOf, is_wide, weight};
ghost use Rattle.letters.specs.Order.{first_letter};

use bits::NumberSet;

// A set has 192 slots, a bit each: 0 to 63 are those of `low`, then come those of `middle` and of `high`. The codes 32 to 127 have the
// slots 0 to 95, and 160 to 255 have 96 to 191. All of these are letters but 127, slot 95, bit 31 of `middle`: no set has it but one
// that is written so by its fields, or made of such a one. Besides this crate only `ranges` and the tests of `any_sets` use the three
// fields.
#[derive(Clone, Copy)]
pub struct LetterSet {
    pub low: u64,
    pub middle: u64,
    pub high: u64,
}

// All slots of a mask, and all of `middle` but that of 127.
const FULL: u64 = u64::MAX;

pub const FULL_MIDDLE: u64 = 0xffff_ffff_7fff_ffff;

// The code of the slot that is no letter's.
pub const DELETE: u8 = 127;

// The lowest code that has a slot, and the lowest of those past 127.
const FIRST: u8 = 32;

const FIRST_HIGH: u8 = 160;

// What is shown of a set that has no letter.
const NO_LETTER: u8 = 0;

// The letters a to z: slots 65 to 90.
const SMALL: LetterSet = LetterSet {
    low: 0x0000_0000_0000_0000,
    middle: 0x0000_0000_07ff_fffe,
    high: 0x0000_0000_0000_0000,
};

// The letters A to Z: slots 33 to 58.
const CAPITAL: LetterSet = LetterSet {
    low: 0x07ff_fffe_0000_0000,
    middle: 0x0000_0000_0000_0000,
    high: 0x0000_0000_0000_0000,
};

// The digits 0 to 9: slots 16 to 25.
const DIGITS: LetterSet = LetterSet {
    low: 0x0000_0000_03ff_0000,
    middle: 0x0000_0000_0000_0000,
    high: 0x0000_0000_0000_0000,
};

impl LetterSet {
    // The empty set.
    pub fn empty() -> LetterSet
        ensures { (c : ℕ) → has_letter result c ≡ false }
    {
        LetterSet {
            low: 0,
            middle: 0,
            high: 0,
        }
    }

    // Is the code in the set: false for a code that has no slot.
    pub fn has(self, code: u8) -> bool
        ensures { result ≡ has_letter self code }
    {
        if code < FIRST {
            false
        } else if code < 128 {
            self.has_at((code - 32) as usize)
        } else if code < FIRST_HIGH {
            false
        } else {
            self.has_at((code - 64) as usize)
        }
    }

    // Is the slot's code in the set.
    fn has_at(self, slot: usize) -> bool
        requires { slot < 192 }
        ensures { result ≡ in_slot self slot }
    {
        match slot {
            0..64 => bits::has(self.low, slot),
            64..128 => bits::has(self.middle, slot - 64),
            _ => bits::has(self.high, slot - 128),
        }
    }

    // The letters of both.
    pub fn union(self, other: LetterSet) -> LetterSet
        ensures { (c : ℕ) → has_letter result c ≡ (has_letter self c || has_letter other c) }
    {
        LetterSet {
            low: self.low | other.low,
            middle: self.middle | other.middle,
            high: self.high | other.high,
        }
    }

    // The letters that are in the other set too.
    pub fn intersection(self, other: LetterSet) -> LetterSet
        ensures { (c : ℕ) → has_letter result c ≡ (has_letter self c && has_letter other c) }
    {
        LetterSet {
            low: self.low & other.low,
            middle: self.middle & other.middle,
            high: self.high & other.high,
        }
    }

    // All letters.
    pub fn all() -> LetterSet
        ensures { (c : ℕ) → has_letter result c ≡ is_letter c }
    {
        LetterSet {
            low: FULL,
            middle: FULL_MIDDLE,
            high: FULL,
        }
    }

    // The letters that are not in the set.
    pub fn complement(self) -> LetterSet
        ensures { (c : ℕ) → has_letter result c ≡ (is_letter c && not (has_letter self c)) }
    {
        LetterSet {
            low: !self.low,
            middle: !self.middle & FULL_MIDDLE,
            high: !self.high,
        }
    }

    // Has the set no letter.
    pub fn is_empty(self) -> bool
        ensures { (result ≡ true → (c : ℕ) → has_letter self c ≡ false) × (result ≡ false → Some self) }
    {
        self.low == 0 && self.middle == 0 && self.high == 0
    }

    // Has the set all letters from 192 on. Such a set is most often one of nearly all letters, and sooner told by those that it lacks.
    pub fn is_wide(self) -> bool
        ensures { result ≡ is_wide self }
    {
        self.high == FULL
    }

    // The lowest letter of a set that is not empty.
    pub fn lowest(self) -> u8
        requires { Some self }
        ensures { LeastLetter self result }
    {
        if self.low != 0 {
            code_at(bits::lowest(self.low))
        } else if self.middle != 0 {
            code_at(64 + bits::lowest(self.middle))
        } else {
            code_at(128 + bits::lowest(self.high))
        }
    }

    // All letters but the lowest of a set that is not empty. The weight falls, so that a walk of the set ends.
    pub fn rest(self) -> LetterSet
        requires { Some self }
        ensures { (weight result < weight self) × ((t : ℕ) → LeastLetter self t → Less (has_letter self) t (has_letter result)) }
    {
        let mut others = self;
        if self.low != 0 {
            others.low = bits::rest(self.low);
            return others;
        }
        if self.middle != 0 {
            others.middle = bits::rest(self.middle);
            return others;
        }
        others.high = bits::rest(self.high);
        others
    }

    // The letter shown of a set that is not empty and holds letters only: the first in the order a to z, A to Z, 0 to 9, then the
    // others by code. Where the set has nothing of the three ranges, its lowest letter is one of the others.
    pub fn first_of_letters(self) -> u8
        requires { Some self × ((c : ℕ) → has_letter self c ≡ true → is_letter c ≡ true) }
        ensures { result ≡ first_letter (has_letter self) }
    {
        for range in [SMALL, CAPITAL, DIGITS] {
            let shown = self.intersection(range);
            if !shown.is_empty() {
                return shown.lowest();
            }
        }
        self.lowest()
    }

    // The letters of the set: all that it has but 127.
    pub fn letters(self) -> LetterSet
        ensures { (c : ℕ) → has_letter result c ≡ (is_letter c && has_letter self c) }
    {
        self.intersection(LetterSet::all())
    }

    // The letter shown of any set: the first of its letters in the same order, or 0, which is none, where it has none.
    pub fn first_in_order(self) -> u8
        ensures { result ≡ first_letter (has_letter self) }
    {
        let letters = self.letters();
        if letters.is_empty() {
            NO_LETTER
        } else {
            letters.first_of_letters()
        }
    }
}

impl NumberSet for LetterSet {
    ghost has = { has_letter };

    ghost weight = { weight };

    fn take_least(self) -> Option<(usize, LetterSet)> {
        if self.is_empty() {
            return None;
        }
        Some((self.lowest() as usize, self.rest()))
    }
}

// The letters of each set of an array.
pub fn letters_of(sets: &[LetterSet; 61]) -> [LetterSet; 61]
    ensures { LettersOf sets.now result }
{
    let mut letters = *sets;
    for i in 0..61 {
        letters[i] = sets[i].letters();
    }
    letters
}

// The slot of a code that has one.
pub fn slot_of(code: u8) -> usize
    requires { has_slot code ≡ true }
    ensures { result ≡ slot_of code }
{
    if code < 128 {
        (code - 32) as usize
    } else {
        (code - 64) as usize
    }
}

// The code of a slot.
fn code_at(slot: usize) -> u8
    requires { slot < 192 }
    ensures { result ≡ code_at slot }
{
    if slot < 96 {
        32 + slot as u8
    } else {
        64 + slot as u8
    }
}
