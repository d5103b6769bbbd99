// A part of a pattern as it is parsed: what is kept of it, and what becomes of that where it is repeated, where a branch or a
// piece more is read, and where an atom is stored in the tables.
#![tactic(auto)]

ghost use Rattle.std.specs.Prelude.{◌≡◌, ◌≤◌};
ghost use Rattle.pattern.specs.Parts.{skips, loops};
ghost use Rattle.pattern.specs.Grammar.{read_letter};
ghost use Rattle.set_table.specs.Tables.{LettersStay};
ghost use Rattle.parsed.specs.Parsed.{rule_of, Letters, Repeats, nothing_read, Either, Joins};

use set_table::Tables;

// The rows of the tables, one for each position, and row 0.
const ROWS: usize = 61;

// What repeats an atom: `?`, `*` or `+`.
#[derive(Clone, Copy)]
pub enum Repeat {
    Optional,
    Star,
    Plus,
}

impl Repeat {
    // May the atom be left out.
    fn skips(self) -> bool
        ensures { result ≡ skips (rule_of self) }
    {
        matches!(self, Repeat::Optional | Repeat::Star)
    }

    // May it go round.
    fn loops(self) -> bool
        ensures { result ≡ loops (rule_of self) }
    {
        matches!(self, Repeat::Star | Repeat::Plus)
    }
}

// A part that was parsed: how many positions there are up to its end, 61 for more than 60; whether the part can be empty, its firsts
// and its lasts; whether an atom of it has a reversed range, or no letter; whether refusal 11 names an interval of it; whether two
// positions of it were linked more than once. Where there are more than 60 positions `empty`, `firsts`, `lasts` and `doubled` mean
// nothing.
#[derive(Clone, Copy)]
pub struct Parsed {
    pub n: usize,
    pub empty: bool,
    pub firsts: u64,
    pub lasts: u64,
    pub reversed: bool,
    pub hollow: bool,
    pub misbounded: bool,
    pub doubled: bool,
}

impl Parsed {
    // Before the first part of a pattern or a branch.
    pub fn nothing(n: usize, empty: bool) -> Parsed
        ensures { result ≡ nothing_read n empty }
    {
        Parsed {
            n,
            empty,
            firsts: 0,
            lasts: 0,
            reversed: false,
            hollow: false,
            misbounded: false,
            doubled: false,
        }
    }

    // A branch more.
    pub fn either(self, next: Parsed) -> Parsed
        ensures { Either self next result }
    {
        Parsed {
            empty: self.empty | next.empty,
            firsts: bits::union(self.firsts, next.firsts),
            lasts: bits::union(self.lasts, next.lasts),
            reversed: self.reversed | next.reversed,
            hollow: self.hollow | next.hollow,
            misbounded: self.misbounded | next.misbounded,
            doubled: self.doubled | next.doubled,
            ..next
        }
    }

    // A piece more.
    pub fn join(self, rows: &mut [u64; 61], next: Parsed) -> Parsed
        ensures { Joins rows.old rows.new self next result }
    {
        links::link(rows, self.lasts, next.firsts);
        let doubled = self.doubled | next.doubled;
        Parsed {
            empty: self.empty & next.empty,
            firsts: bits::union_if(self.empty, self.firsts, next.firsts),
            lasts: bits::union_if(next.empty, next.lasts, self.lasts),
            reversed: self.reversed | next.reversed,
            hollow: self.hollow | next.hollow,
            misbounded: self.misbounded | next.misbounded,
            doubled,
            ..next
        }
    }

    // The part with its repeat.
    pub fn again(self, rows: &mut [u64; 61], more: &mut [u8; 3721], repeat: Repeat) -> Parsed
        ensures { Repeats (rule_of repeat) rows.old more.old rows.new more.new self result }
    {
        let back = bits::union_if(repeat.loops(), 0, self.lasts);
        let second = links::link_again(rows, more, back, self.firsts);
        Parsed {
            empty: repeat.skips() | self.empty,
            doubled: self.doubled | second,
            ..self
        }
    }
}

// The lettered atom at the front of a text, and the text after it; `None` where the grammar has none there. It is a position, its only
// first and last. Its letters and its credit go to the tables. More than 60 positions count as 61.
pub fn letter<'a>(text: &'a [u8], n: usize, tables: &mut Tables) -> Option<(Parsed, &'a [u8])>
    requires { n ≤ 61 }
    ensures says { Letters text.now n tables.old tables.new (read_letter text.now) result }
    ensures letters { LettersStay tables.old tables.new }
{
    let (a, rest) = atoms::atom(text)?;
    let k = (n + 1).min(61);
    if k < ROWS {
        tables.write(k, a.set, a.credit);
    }
    let own = links::position(k);
    let part = Parsed {
        n: k,
        empty: false,
        firsts: own,
        lasts: own,
        reversed: a.reversed,
        hollow: a.hollow,
        misbounded: false,
        doubled: false,
    };
    Some((part, rest))
}
