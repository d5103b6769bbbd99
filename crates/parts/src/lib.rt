// Patterns, branches and pieces in one pass: three functions that call each other, as those of the grammar do. What they share
// goes through them from left to right: the rows of what may follow, which a pattern is given by value, lends to its branches and gives
// back with its own links, and the tables of letters, of credits and of links beyond the first, which are lent and filled as the atoms
// are read.
// Patterns and branches are folded from the left: one part has been read, and the next is joined to it. Each function reads the front
// of any text.
#![tactic(auto)]

ghost use Rattle.std.specs.Prelude.{◌≡◌, [], ◌≤◌};
ghost use Rattle.pattern.specs.Grammar.{goes_on, pattern_from, branch_from};
ghost use Rattle.links.specs.Rows.{NoneCounted};
ghost use Rattle.set_table.specs.Tables.{LettersStay};
ghost use Rattle.parsed.specs.Tables.{Stored};
ghost use Rattle.parsed.specs.Parsed.{memory};
ghost use Rattle.parts.specs.Parsing.{Parses, ParsesAll, closed_from};

use parsed::Parsed;
use set_table::Tables;

// What parts branches, and what ends a pattern in `( )`.
const BAR: u8 = b'|';

const CLOSE: u8 = b')';

// What was read, and the text after it, or `None` where the grammar has nothing good there; and the rows, with its links: row a has
// what may follow position a, and row 0 is not used. Where nothing was read the rows mean nothing.
#[derive(Clone, Copy)]
pub struct ParsedRows<'a> {
    pub read: Option<(Parsed, &'a [u8])>,
    pub rows: [u64; 61],
}

// The pattern at the front of a text. The whole of it follows the grammar where nothing is left after that.
pub fn parse<'a>(text: &'a [u8], tables: &mut Tables, more: &mut [u8; 3721]) -> ParsedRows<'a>
    requires { Stored [] tables.old.sets tables.old.credits × NoneCounted more.old }
    ensures says { ParsesAll text.now more.new tables.new result }
    ensures letters { LettersStay tables.old tables.new }
{
    let rows = [0u64; 61];
    pattern(text, 0, rows, tables, more)
}

// One or more branches, parted by `|`.
#[cycle(branch_pattern_piece)]
fn pattern<'a>(
    text: &'a [u8],
    n: usize,
    rows: [u64; 61],
    tables: &mut Tables,
    more: &mut [u8; 3721],
) -> ParsedRows<'a>
    requires { n ≤ 61 }
    ensures says { Parses pattern_from 2 text.now n (memory rows more.old tables.old) (memory result.rows more.new tables.new) result.read }
    ensures letters { LettersStay tables.old tables.new }
{
    let mut all = rows;
    let mut so_far = Parsed::nothing(n, false);
    let mut left = text;
    let read = loop {
        let Some((next, rest)) = branch(left, so_far.n, &mut all, tables, more) else {
            break None;
        };
        so_far = so_far.either(next);
        let [BAR, after @ ..] = rest else {
            break Some((so_far, rest));
        };
        left = after;
    };
    ParsedRows { read, rows: all }
}

// One or more pieces: an atom, and what repeats it. A lettered atom is read here, since it has no rows to give back.
#[cycle(branch_pattern_piece)]
fn branch<'a>(
    text: &'a [u8],
    n: usize,
    rows: &mut [u64; 61],
    tables: &mut Tables,
    more: &mut [u8; 3721],
) -> Option<(Parsed, &'a [u8])>
    requires { n ≤ 61 }
    ensures says { Parses branch_from 1 text.now n (memory rows.old more.old tables.old) (memory rows.new more.new tables.new) result }
    ensures letters { LettersStay tables.old tables.new }
{
    let mut so_far = Parsed::nothing(n, true);
    let mut left = text;
    loop {
        let read = match left {
            [b'(', inside @ ..] => {
                let p = piece(inside, so_far.n, *rows, tables, more);
                *rows = p.rows;
                p.read
            }
            _ => parsed::letter(left, so_far.n, tables),
        };
        let (atom, rest) = read?;
        let (next, rest) = repeats::repeat(rest, so_far.n, atom, rows, tables, more)?;
        so_far = so_far.join(rows, next);
        if !goes_on(rest) {
            return Some((so_far, rest));
        }
        left = rest;
    }
}

// The atom of a piece that is a pattern in `( )`, after its `(`.
#[cycle(branch_pattern_piece)]
fn piece<'a>(
    text: &'a [u8],
    n: usize,
    rows: [u64; 61],
    tables: &mut Tables,
    more: &mut [u8; 3721],
) -> ParsedRows<'a>
    requires { n ≤ 61 }
    ensures says { Parses closed_from 3 text.now n (memory rows more.old tables.old) (memory result.rows more.new tables.new) result.read }
    ensures letters { LettersStay tables.old tables.new }
{
    let mut p = pattern(text, n, rows, tables, more);
    p.read = match p.read {
        Some((part, [CLOSE, rest @ ..])) => Some((part, rest)),
        _ => None,
    };
    p
}

// Does another piece follow, by the text that is left.
fn goes_on(text: &[u8]) -> bool
    ensures { result ≡ goes_on text.now }
{
    !matches!(text, [] | [b'|', ..] | [b')', ..])
}
