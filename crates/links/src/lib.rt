// Sets and rows of positions: row a has the positions that may follow position a. There is room for positions up to 60; those past
// 60 are counted only. A lent table has the numbers of links: entry 61 * a + b is how many lead from a to b beyond the first.
#![tactic(auto)]

ghost use Rattle.std.specs.Prelude.{◌<◌, ◌^◌, eqb};
ghost use Rattle.links.specs.Rows.{Marks, Linked, Further, LinksMore};

// The rows of a table, one for each state.
const ROWS: usize = 61;

// Each of firsts may follow each of lasts that has a row.
pub fn link(rows: &mut [u64; 61], lasts: u64, firsts: u64)
    ensures { Linked rows.old lasts firsts rows.new }
{
    for a in bits::members(bits::intersection(bits::below(61), lasts)) {
        rows[a] = bits::union(rows[a], firsts);
    }
}

// The same by one link more, where they may follow already. Says whether one of them did.
pub fn link_again(rows: &mut [u64; 61], more: &mut [u8; 3721], lasts: u64, firsts: u64) -> bool
    ensures { LinksMore rows.old more.old lasts firsts rows.new more.new result }
{
    let all = bits::below(61);
    let ends = bits::intersection(all, firsts);
    let mut again = false;
    for a in bits::members(bits::intersection(all, lasts)) {
        let old = bits::intersection(rows[a], ends);
        add(more, a, old);
        again |= old != 0;
        rows[a] = bits::union(rows[a], firsts);
    }
    again
}

// One link more from a to each of a set, up to 255.
fn add(more: &mut [u8; 3721], a: usize, set: u64)
    requires { (a < 61) × (set < 2 ^ 61) }
    ensures { Further more.old a set more.new }
{
    for b in bits::members(set) {
        let k = 61 * a + b;
        more[k] = more[k].saturating_add(1);
    }
}

// The set of position n alone: none past 60.
pub fn position(n: usize) -> u64
    ensures { Marks result (λ b. eqb b n) }
{
    if n < ROWS { bits::only(n) } else { 0 }
}
