// The nodes of a search and the steps between them. A node is two paths side by side over one text, in the graph of a pattern's
// positions. Paths part where they come to different positions, or to one by different links.
#![tactic(auto)]

ghost use Rattle.std.specs.Prelude.{◌≡◌, true, not, ◌&&◌, ◌||◌, ℕ, ◌≤◌, ◌<◌, eqb};
ghost use Rattle.bits.specs.Bits.{has_bit};
ghost use Rattle.nodes.specs.Nodes.{Fits, number_of, left_side, right_side, Numbered, pack, RowOf, PartnersOf};

// Two paths side by side: together at a state, where they have not parted, or parted and at two positions, the greater one first.
#[derive(Clone, Copy, PartialEq, Eq, Debug)]
pub enum Node {
    Together(usize),
    Parted(usize, usize),
}

// The node that stands in a queue as a number: below 64 it is a state, and from there on the greater position * 64 + the other.
impl From<u16> for Node {
    ghost from_gives = { Numbered };

    fn from(number: u16) -> Node {
        let x = number as usize;
        if x < 64 {
            return Node::Together(x);
        }
        Node::Parted(x / 64, x % 64)
    }
}

impl Node {
    // The node of two paths that have parted and are at a and b.
    fn parted(a: usize, b: usize) -> Node
        requires { (1 ≤ a) × (a ≤ 60) × (1 ≤ b) × (b ≤ 60) }
        ensures { Fits result × (number_of result ≡ pack a b) }
    {
        Node::Parted(a.max(b), a.min(b))
    }

    // The number of a node.
    pub fn number(self) -> u16
        requires { Fits self }
        ensures { result ≡ number_of self }
    {
        match self {
            Node::Together(a) => a as u16,
            Node::Parted(a, b) => (a * 64 + b) as u16,
        }
    }

    // Where the two paths are.
    pub fn sides(self) -> (usize, usize)
        ensures { (result.0 ≡ left_side self) × (result.1 ≡ right_side self) }
    {
        match self {
            Node::Together(a) => (a, a),
            Node::Parted(a, b) => (a, b),
        }
    }
}

// The nodes that a search has taken up: the states in a set, and a pair in both of its rows, so that row a has b and row b has a. So
// whether a node is new is one bit, and the new partners of a position are one word. Any value may be given: of a pair in one row
// alone, each function goes by the row that its contract names.
#[derive(Clone, Copy)]
pub struct Seen {
    pub states: u64,
    pub pairs: [u64; 61],
}

impl Seen {
    ghost use Rattle.nodes.specs.Taken.{OneTaken, TakenUp};

    // A state, and no pair.
    pub fn only(state: usize) -> Seen
        requires { state ≤ 60 }
        ensures { OneTaken state result }
    {
        Seen {
            states: bits::only(state),
            pairs: [0; 61],
        }
    }

    // Takes a node up besides. Where each pair was in both of its rows or in neither, so it is then.
    pub fn take_up(&mut self, node: Node)
        requires { Fits node }
        ensures { TakenUp self.old self.new (number_of node) }
    {
        match node {
            Node::Together(a) => self.states = bits::with(self.states, a),
            Node::Parted(a, b) => {
                self.pairs[a] = bits::with(self.pairs[a], b);
                self.pairs[b] = bits::with(self.pairs[b], a);
            }
        }
    }
}

// What a search goes by, in rows of a word: for each state the positions that may come next, and those to which two links or more
// lead, and for each position those that share a letter with it.
#[derive(Drop)]
pub struct Steps {
    pub follow: [u64; 61],
    pub doubles: [u64; 61],
    pub shares: [u64; 61],
}

// A node that is not taken up, and what is still to be looked at: a pair that is not taken up has its first path at a position of
// `pending`.
#[derive(Clone, Copy)]
pub struct Next {
    pub node: Node,
    pub pending: u64,
}

impl Steps {
    ghost use Rattle.nodes.specs.Taken.{FindsPair, Finds};

    // A node one step on from x that is not taken up. Where x is no node there is none. Of pairs, only those whose first path comes to
    // a position of `pending` are looked at.
    pub fn next_new(&self, seen: &Seen, pending: u64, x: Node) -> Option<Next>
        ensures { Finds self.now seen.now pending x result }
    {
        match x {
            Node::Together(u @ 0..=60) => {
                let next = self.row(u);
                let new = bits::difference(next, seen.states);
                if let Some(a) = bits::members(new).next() {
                    let node = Node::Together(a);
                    return Some(Next { node, pending });
                }
                let from = bits::intersection(next, pending);
                self.new_pair(seen, from, next, self.doubles[u])
            }
            Node::Parted(a @ 1..=60, b @ 1..=60) => {
                let from = bits::intersection(self.row(a), pending);
                self.new_pair(seen, from, self.row(b), u64::MAX)
            }
            _ => None,
        }
    }

    // The positions that may come next at a state.
    fn row(&self, u: usize) -> u64
        requires { u ≤ 60 }
        ensures { RowOf self.now.follow u result }
    {
        bits::intersection(self.follow[u], bits::span(1, 61))
    }

    // A pair that is not taken up, of a position of `from` and one of `to`; of a position and itself only where `own` has it. Those of
    // `from` before it have none, and are pending no more.
    fn new_pair(&self, seen: &Seen, from: u64, to: u64, own: u64) -> Option<Next>
        requires { ((i : ℕ) → has_bit from i ≡ true → (1 ≤ i) × (i ≤ 60)) × ((i : ℕ) → has_bit to i ≡ true → (1 ≤ i) × (i ≤ 60)) }
        ensures { FindsPair self.now.shares seen.now from to own result }
    {
        for a in bits::members(from) {
            let new = partners(to, self.shares[a], seen.pairs[a], a, own);
            if let Some(b) = bits::members(new).next() {
                let node = Node::parted(a, b);
                let pending = bits::difference(from, bits::below(a));
                return Some(Next { node, pending });
            }
        }
        None
    }
}

// Of the set `to`, the positions that share a letter with a and are not seen beside it; a itself only where `own` has it.
fn partners(to: u64, shared: u64, seen: u64, a: usize, own: u64) -> u64
    requires { a < 64 }
    ensures { PartnersOf to shared seen a own result }
{
    others(
        bits::difference(bits::intersection(to, shared), seen),
        a,
        own,
    )
}

// The members of a set, i only where `own` has it too.
fn others(set: u64, i: usize, own: u64) -> u64
    requires { i < 64 }
    ensures { (j : ℕ) → has_bit result j ≡ (has_bit set j && (has_bit own i || not (eqb i j))) }
{
    bits::difference(set, bits::difference(bits::only(i), own))
}
