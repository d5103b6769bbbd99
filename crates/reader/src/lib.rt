// Reading a pattern: its refusal, or the built pattern. `read` takes any bytes.
#![tactic(auto)]

ghost use Rattle.std.specs.Prelude.{◌≡◌, ◌≤◌};
ghost use Rattle.links.specs.Rows.{NoneCounted};
ghost use Rattle.reader.specs.Read.{Reads, Builds};

use graph::Built;
use parsed::Parsed;
use pattern::Refusal;
use set_table::Tables;

// The longest pattern, in bytes, and the most positions.
const LONGEST: usize = 512;

const MOST: usize = 60;

// The first refusal, of those of a pattern, that applies to s, or the pattern that it is, built, and in `more`, which has 0 in each
// entry before, the links beyond the first: entry 61 * u + i is how many of them lead from state u to position i. Where the built
// pattern is not `doubled` there are none. At a refusal `more` means nothing.
pub fn read(s: &[u8], more: &mut [u8; 3721]) -> Result<Built, Refusal>
    requires { NoneCounted more.old }
    ensures { Reads s.now more.new result }
{
    if s.len() > LONGEST {
        return Err(Refusal::LongPattern);
    }
    if !alphabet::all_letters(s) {
        return Err(Refusal::PatternNotLetters);
    }
    let mut tables = Tables {
        sets: set_table::empty(),
        credits: [9; 61],
    };
    let p = parts::parse(s, &mut tables, more);
    let Some((part, [])) = p.read else {
        return Err(Refusal::BrokenGrammar);
    };
    if part.reversed {
        return Err(Refusal::ReversedRange);
    }
    if part.hollow {
        return Err(Refusal::EmptyClass);
    }
    if part.misbounded {
        return Err(Refusal::WrongBounds);
    }
    if part.n > MOST {
        return Err(Refusal::ManyPositions);
    }
    let built = accepted(part, p.rows, &tables);
    Ok(built)
}

// A pattern that nothing refuses, built of its links and of the tables. The state 0, before any letter, gets its row, the firsts, and
// is a last where the pattern can be empty.
fn accepted(part: Parsed, rows: [u64; 61], tables: &Tables) -> Built
    requires { part.n ≤ 60 }
    ensures { Builds part rows tables.now.sets tables.now.credits result }
{
    let mut follow = rows;
    follow[0] = part.firsts;
    Built {
        positions: part.n,
        follow,
        doubled: part.doubled,
        lasts: bits::union_if(part.empty, part.lasts, bits::only(0)),
        letters: tables.sets,
        credits: tables.credits,
    }
}
