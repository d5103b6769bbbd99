// What comes after an atom: `?`, `*`, `+` or an interval, which is written out in copies, each with letters, credits and links of its
// own.
#![tactic(auto)]

ghost use Rattle.std.specs.Prelude.{◌≡◌};
ghost use Rattle.bounds.specs.Bounds.{bounds_of};
ghost use Rattle.set_table.specs.Tables.{LettersStay};
ghost use Rattle.parsed.specs.Parsed.{memory};
ghost use Rattle.chains.specs.Chains.{how_many};
ghost use Rattle.repeats.specs.Repeats.{Placed, WritesOut, ReadsRepeat};

use bounds::IntervalRead;
use copies::Stretch;
use parsed::{Parsed, Repeat};
use set_table::Tables;

// An atom that has the positions after n, with what repeats it at the front of a text, if anything does, and the text after that;
// `None` where the grammar has no such interval.
pub fn repeat<'a>(
    text: &'a [u8],
    n: usize,
    p: Parsed,
    rows: &mut [u64; 61],
    tables: &mut Tables,
    more: &mut [u8; 3721],
) -> Option<(Parsed, &'a [u8])>
    requires { Placed n p }
    ensures says { ReadsRepeat text.now n (memory rows.old more.old tables.old) (memory rows.new more.new tables.new) p result }
    ensures letters { LettersStay tables.old tables.new }
{
    match text {
        [b'?', rest @ ..] => Some((p.again(rows, more, Repeat::Optional), rest)),
        [b'*', rest @ ..] => Some((p.again(rows, more, Repeat::Star), rest)),
        [b'+', rest @ ..] => Some((p.again(rows, more, Repeat::Plus), rest)),
        [b'{', rest @ ..] => {
            let (i, rest) = bounds::interval(rest)?;
            Some((interval(n, p, i, rows, tables, more), rest))
        }
        _ => Some((p, text)),
    }
}

// An atom with its interval: written out in copies, where refusal 11 does not name it and there are no more than 60 positions.
fn interval(
    n: usize,
    p: Parsed,
    i: IntervalRead,
    rows: &mut [u64; 61],
    tables: &mut Tables,
    more: &mut [u8; 3721],
) -> Parsed
    requires { Placed n p }
    ensures says { WritesOut n i (memory rows.old more.old tables.old) (memory rows.new more.new tables.new) p result }
    ensures letters { LettersStay tables.old tables.new }
{
    if bounds::out_of_bounds(i) {
        return Parsed {
            misbounded: true,
            ..p
        };
    }
    let copies = how_many(i);
    let w = p.n - n;
    if (60 < p.n) | (60 < n + copies * w) {
        return Parsed { n: 61, ..p };
    }
    let end = n + 1 + (copies - 1) * w;
    let own = Stretch {
        from: n + 1,
        to: end,
        by: w,
    };
    tables.repeat(own);
    chains::chain(p, w, copies, i, rows, more)
}

// How many copies an interval has.
fn how_many(i: IntervalRead) -> usize
    ensures { result ≡ how_many (bounds_of i) }
{
    i.upper.unwrap_or(i.lower.max(1))
}
