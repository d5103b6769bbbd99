// Rows of counts and credits over the states of a graph, for marking. Counts stop at 2^63.
#![tactic(auto)]

ghost use Rattle.std.specs.Prelude.{◌≡◌, ℕ, suc, ◌+◌, ◌*◌, ◌^◌, ◌<◌, ◌≤◌, min, slice_index};

use bits::NumberSet;

// What some states come to: readings counted, and the greatest sum of credits that one of them has.
#[derive(Clone, Copy)]
pub struct Sum {
    pub count: u64,
    pub most: u32,
}

// What a step looks up: for each position the states before it and its credit, and where there can be several links from a state to
// a position, at 61 * u + i how many lead from state u to position i beyond the first.
#[derive(Clone, Copy)]
pub struct Links<'a> {
    pub before: &'a [u64; 61],
    pub credits: &'a [u8; 61],
    pub more: Option<&'a [u8; 3721]>,
}

// The states that are possible after some letters, and for each a count and the greatest sum of credits: those of any other state mean
// nothing.
#[derive(Drop)]
pub struct Row {
    pub active: u64,
    pub counts: [u64; 61],
    pub most: [u32; 61],
    ghost states: { active < 2 ^ 61 },
    ghost stopped: { (u : ℕ) → slice_index counts u ≤ 2 ^ 63 },
}

// What the members of a set gave a position, and give each other position too. The set is empty where they may give another one more or
// less.
#[derive(Clone, Copy)]
struct Arrived {
    members: u64,
    sum: Sum,
}

impl Row {
    ghost use Rattle.std.specs.Prelude.{true, bit_and};
    ghost use Rattle.bits.specs.Bits.{has_bit};
    ghost use Rattle.frontier.specs.Rows.{Begun, Stepped, Gives, Known, count_of, most_of, links_to};

    // Before any letter: state 0 alone is possible, by one reading that has earned nothing.
    pub fn start() -> Row
        ensures { Begun result }
    {
        let mut counts = [0; 61];
        counts[0] = 1;
        Row {
            active: 1,
            counts,
            most: [0; 61],
        }
    }

    // One letter on, by a letter that the positions of `holds` hold: the row after it is stored in `next`. Credits wrap: those of a
    // row that was made here are far too small for it.
    pub fn step(&self, next: &mut Row, holds: u64, links: &Links)
        requires { holds < 2 ^ 61 }
        ensures { Stepped links.now holds self.now next.new }
    {
        let mut active = 0;
        let mut arrived = Arrived {
            members: 0,
            sum: Sum { count: 0, most: 0 },
        };
        for i in bits::members(holds) {
            let members = links.before[i] & self.active;
            if members != 0 {
                arrived = self.arrived(members, links, i, arrived);
                next.counts[i] = arrived.sum.count;
                next.most[i] = arrived.sum.most.wrapping_add(links.credits[i] as u32);
                active = bits::with(active, i);
            }
        }
        next.active = active;
    }

    // What the members of a set give position i: what they gave the position before, where that is known. Where the first count has
    // stopped, so has the sum, by whatever links.
    fn arrived(&self, members: u64, links: &Links, i: usize, known: Arrived) -> Arrived
        requires { (members ≡ 0 → ⊥) × (members < 2 ^ 61) × (i < 61) × Known links.now self.now known.members known.sum }
        ensures { Gives links.now self.now members i result.sum × Known links.now self.now result.members result.sum }
    {
        if members == known.members {
            return known;
        }
        let stopped = self.counts[bits::lowest(members)] == MOST;
        if stopped {
            let sum = Sum {
                count: MOST,
                most: self.greatest(members),
            };
            return Arrived { members, sum };
        }
        match links.more {
            Some(more) => Arrived {
                members: 0,
                sum: self.gather_by_links(members, more, i),
            },
            None => Arrived {
                members,
                sum: self.gather(members),
            },
        }
    }

    // What the possible states at which a reading may end come to.
    pub fn total(&self, lasts: u64) -> Sum
        ensures { (result.count ≡ count_of (bit_and self.now.active lasts) (slice_index self.now.counts))
            × (result.most ≡ most_of (bit_and self.now.active lasts) (slice_index self.now.most)) }
    {
        self.gather(self.active & lasts)
    }

    // The members of a set taken together. So few counts are far below 2^128 in sum, which is cut once; one alone was cut before.
    fn gather(&self, members: u64) -> Sum
        requires { members < 2 ^ 61 }
        ensures { (result.count ≡ count_of members (slice_index self.now.counts)) × (result.most ≡ most_of members (slice_index self.now.most)) }
    {
        let Some((first, others)) = members.take_least() else {
            return Sum { count: 0, most: 0 };
        };
        let count = self.counts[first];
        let mut most = self.most[first];
        if others == 0 {
            return Sum { count, most };
        }
        let mut sum = count as u128;
        for other in bits::members(others) {
            sum += self.counts[other] as u128;
            most = self.most[other].max(most);
        }
        Sum {
            count: sum.min(MOST as u128) as u64,
            most,
        }
    }

    // The greatest credit of the members of a set.
    fn greatest(&self, members: u64) -> u32
        requires { members < 2 ^ 61 }
        ensures { result ≡ most_of members (slice_index self.now.most) }
    {
        let mut most = 0;
        for member in bits::members(members) {
            most = self.most[member].max(most);
        }
        most
    }

    // As gather, the count of each once for each link from it to position i.
    fn gather_by_links(&self, members: u64, more: &[u8; 3721], i: usize) -> Sum
        requires { (members < 2 ^ 61) × (i < 61) }
        ensures { (result.count ≡ count_of members (λ u. links_to more.now u i * slice_index self.now.counts u)) × (result.most ≡ most_of members (slice_index self.now.most)) }
    {
        let mut count = 0;
        let mut most = 0;
        for u in bits::members(members) {
            count = plus_times(count, self.counts[u], more[61 * u + i]);
            most = self.most[u].max(most);
        }
        Sum { count, most }
    }
}

// Where counts stop.
const MOST: u64 = 0x8000_0000_0000_0000;

// The sum, 2^63 where it is more.
fn plus(x: u64, y: u64) -> u64
    ensures { result ≡ min (x + y) (2 ^ 63) }
{
    if y < MOST && x < MOST - y {
        x + y
    } else {
        MOST
    }
}

// The same for a sum and a number taken once, and as often again as `more` says. A number that has stopped needs no product.
fn plus_times(sum: u64, x: u64, more: u8) -> u64
    ensures { result ≡ min (sum + suc more * x) (2 ^ 63) }
{
    if x < MOST {
        let product = x as u128 * (more as u128 + 1);
        plus(sum, product.min(MOST as u128) as u64)
    } else {
        MOST
    }
}
