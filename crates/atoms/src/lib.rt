// Lettered atoms: one letter, `.` or a class, and the credit after it. What is read is at the front of any text: a function gives what it
// read and the text after it, or `None` where the grammar has nothing good there.
#![tactic(auto)]

ghost use Rattle.std.specs.Prelude.{◌≡◌, true, false, [], ◌∷◌};
ghost use Rattle.basics.specs.Bytes.{is_in};
ghost use Rattle.pattern.specs.Parts.{item};
ghost use Rattle.pattern.specs.Grammar.{special as specialBytes, read_credit, read_letter};
ghost use Rattle.classes.specs.Classes.{Names, ReadsNamed};
ghost use Rattle.atoms.specs.Atoms.{ReadsCredit, ReadsAtom};

use classes::Named;
use letters::LetterSet;

// The sign of points taken off.
const MINUS: u8 = b'-';

// A lettered atom that was read: its letters, whether it has none, whether a range of it is reversed, and its credit, raised by 9, so
// that it has no sign.
#[derive(Clone, Copy)]
pub struct Lettered {
    pub set: LetterSet,
    pub hollow: bool,
    pub reversed: bool,
    pub credit: u8,
}

// The lettered atom at the front of a text, with its credit.
pub fn atom(text: &[u8]) -> Option<(Lettered, &[u8])>
    ensures { ReadsAtom (read_letter text.now) result }
{
    let (named, rest) = names(text)?;
    let (credit, rest) = credit(rest)?;
    let hollow = named.set.is_empty();
    let atom = Lettered {
        set: named.set,
        hollow,
        reversed: named.reversed,
        credit,
    };
    Some((atom, rest))
}

// The letters of the atom at the front of a text.
fn names(text: &[u8]) -> Option<(Named, &[u8])>
    ensures { ReadsNamed (read_letter text.now) text.now result }
{
    match text {
        [b'[', rest @ ..] => classes::class(rest),
        [b'.', rest @ ..] => Some((every(), rest)),
        [b'\\', b, rest @ ..] if special(*b) => Some((one(*b), rest)),
        [b, rest @ ..] if !special(*b) => Some((one(*b), rest)),
        _ => None,
    }
}

// One letter.
fn one(code: u8) -> Named
    ensures { Names false (item code code ∷ []) result }
{
    Named {
        set: ranges::only(code),
        reversed: false,
    }
}

// All letters.
fn every() -> Named
    ensures { Names true [] result }
{
    Named {
        set: LetterSet::all(),
        reversed: false,
    }
}

// Is a byte special outside of classes.
fn special(b: u8) -> bool
    ensures { result ≡ is_in b specialBytes }
{
    matches!(
        b,
        b'|' | b'*'
            | b'+'
            | b'?'
            | b'('
            | b')'
            | b'['
            | b']'
            | b'{'
            | b'}'
            | b'^'
            | b'$'
            | b'.'
            | b'\\'
            | b'='
    )
}

// The credit at the front of a text, raised by 9: 0 where there is no `=`.
fn credit(text: &[u8]) -> Option<(u8, &[u8])>
    ensures { ReadsCredit (read_credit text.now) result }
{
    match text {
        [b'=', d @ b'1'..=b'9', rest @ ..] => Some((9 + (*d - b'0'), rest)),
        [b'=', MINUS, d @ b'1'..=b'9', rest @ ..] => Some((9 - (*d - b'0'), rest)),
        [b'=', ..] => None,
        _ => Some((9, text)),
    }
}
