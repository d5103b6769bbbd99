// Classes of letters in `[ ]`: their items, each one letter or a range. What is read is at the front of any text: a function gives what it
// read and the text after it, or `None` where the grammar has nothing good there.
#![tactic(auto)]

ghost use Rattle.std.specs.Prelude.{◌≡◌, [], ℕ, ◌<◌, length};
ghost use Rattle.basics.specs.Bytes.{is_in};
ghost use Rattle.pattern.specs.Grammar.{class_special, items_from, read_class};
ghost use Rattle.classes.specs.Classes.{ReadsClassLetter, ReadsItem, ReadsItems, ReadsNamed};

use letters::LetterSet;

// The letters of an atom, and whether a range is reversed.
#[derive(Clone, Copy)]
pub struct Named {
    pub set: LetterSet,
    pub reversed: bool,
}

// A class, after its `[`.
pub fn class(text: &[u8]) -> Option<(Named, &[u8])>
    ensures { ReadsNamed (read_class text.now) text.now result }
{
    match text {
        [b'^', rest @ ..] => {
            let (named, rest) = items(rest)?;
            let set = named.set.complement();
            Some((Named { set, ..named }, rest))
        }
        _ => items(text),
    }
}

// The items of a class, and its `]`.
fn items(text: &[u8]) -> Option<(Named, &[u8])>
    ensures { (f : ℕ) → length text.now < f → ReadsItems (items_from f [] text.now) text.now result }
{
    let mut set = LetterSet::empty();
    let mut reversed = false;
    let mut left = text;
    loop {
        let (item, rest) = item(left)?;
        set = set.union(ranges::range(item.lo, item.hi));
        reversed |= item.hi < item.lo;
        if let [b']', rest @ ..] = rest {
            return Some((Named { set, reversed }, rest));
        }
        left = rest;
    }
}

// An item of a class: the first and the last of its letters.
#[derive(Clone, Copy)]
struct Range {
    lo: u8,
    hi: u8,
}

// An item: one class letter, or two with `-` between them.
fn item(text: &[u8]) -> Option<(Range, &[u8])>
    ensures { ReadsItem text.now result }
{
    let (lo, rest) = class_letter(text)?;
    match rest {
        [b'-', rest @ ..] => {
            let (hi, rest) = class_letter(rest)?;
            Some((Range { lo, hi }, rest))
        }
        _ => Some((Range { lo, hi: lo }, rest)),
    }
}

// A class letter: a byte that is not special in a class, or `\` with one that is.
fn class_letter(text: &[u8]) -> Option<(u8, &[u8])>
    ensures { ReadsClassLetter text.now result }
{
    match text {
        [b'\\', b, rest @ ..] if special_in_class(*b) => Some((*b, rest)),
        [b, rest @ ..] if !special_in_class(*b) => Some((*b, rest)),
        _ => None,
    }
}

// Is a byte special in a class.
fn special_in_class(b: u8) -> bool
    ensures { result ≡ is_in b class_special }
{
    matches!(b, b'[' | b']' | b'\\' | b'^' | b'-')
}
