// Copies of a part, one after the other. The part just read has positions of its own, the last ones so far, and links among these
// alone; so a copy of it is its rows and its numbers of links, moved on, and the copies are joined as pieces are.
#![tactic(auto)]

ghost use Rattle.std.specs.Prelude.{◌≡◌, ◌+◌, ◌-◌, ◌*◌, ◌<◌, ◌≤◌};
ghost use Rattle.bounds.specs.Bounds.{bounds_of};
ghost use Rattle.chains.specs.Chains.{NextRows, Copied, NextPart, Chains};

use bounds::IntervalRead;
use copies::Stretch;
use parsed::Parsed;

// A part, and copies of it after it, each joined to those before. It may end with each copy from the lower bound on; where there is
// no upper bound the last copy may go round.
pub fn chain(
    p: Parsed,
    w: usize,
    copies: usize,
    interval: IntervalRead,
    rows: &mut [u64; 61],
    more: &mut [u8; 3721],
) -> Parsed
    requires { (0 < w) × (w ≤ p.n) × (0 < copies) × (p.n + (copies - 1) * w ≤ 60) }
    ensures { Chains w copies (bounds_of interval) rows.old more.old rows.new more.new p result }
{
    copy(p.n, p.doubled, w, copies - 1, rows, more);
    let mut all = p;
    let mut one = p;
    let mut ends = p.lasts;
    for i in 1..copies {
        one = next(one, w);
        all = all.join(rows, one);
        ends = bits::union_if(interval.lower <= i, all.lasts, ends);
    }
    let back = bits::union_if(interval.upper.is_none(), 0, one.lasts);
    let second = links::link_again(rows, more, back, one.firsts);
    Parsed {
        empty: (interval.lower == 0) | all.empty,
        lasts: ends,
        doubled: all.doubled | second,
        ..all
    }
}

// The rows of so many copies more of a part, side by side, and their numbers of links. The part has w positions, up to n.
fn copy(
    n: usize,
    doubled: bool,
    w: usize,
    copies: usize,
    rows: &mut [u64; 61],
    more: &mut [u8; 3721],
)
    requires { (0 < w) × (w ≤ n) × (n + copies * w ≤ 60) }
    ensures { Copied w doubled n copies rows.old more.old rows.new more.new }
{
    for made in 0..copies {
        next_rows(n + made * w, doubled, w, rows, more);
    }
}

// Those of one copy more, after one that has w positions, up to n.
fn next_rows(n: usize, doubled: bool, w: usize, rows: &mut [u64; 61], more: &mut [u8; 3721])
    requires { (0 < w) × (w ≤ n) × (n + w ≤ 60) }
    ensures { NextRows w doubled n rows.old more.old rows.new more.new }
{
    let from = n - w + 1;
    let own = Stretch {
        from,
        to: n + 1,
        by: w,
    };
    copies::rows(rows, own);
    if doubled {
        let numbers = Stretch {
            from: 62 * from,
            to: 62 * n + 1,
            by: 62 * w,
        };
        copies::entries(more, numbers);
    }
}

// The next copy of a part of w positions.
fn next(p: Parsed, w: usize) -> Parsed
    requires { p.n + w ≤ 60 }
    ensures { NextPart w p result }
{
    Parsed {
        n: p.n + w,
        firsts: bits::moved(p.firsts, w),
        lasts: bits::moved(p.lasts, w),
        ..p
    }
}
