// A search, breadth first, from a state to a goal, over the nodes and steps of crate `nodes`, in lent memory. One from each position
// finds the first pivot. The steps of a search, and what it holds between them, are private.
#![tactic(auto)]

ghost use Rattle.std.specs.Prelude.{◌≡◌, ℕ, ◌≤◌, ◌<◌, length};
ghost use Rattle.graph.specs.Graph.{Graph};
ghost use Rattle.nodes.specs.declared.Steps.{Steps};
ghost use Rattle.nodes.specs.Nodes.{Fits, number_of};
ghost use Rattle.search.specs.Search.{back_of, enqueue, is_goal, Begun, Tried, Searched, IsFirstPivot};
ghost use Rattle.shares.specs.Tables.{Tables};

use nodes::{Node, Seen, Steps};

// Where a search is to end, by a set: for one path a state or a pair in it, else two paths that have parted, both in it.
#[derive(Clone, Copy)]
pub enum Goal {
    OnePath(u64),
    Parted(u64),
}

impl Goal {
    // Is a node a goal.
    fn is_met(self, node: Node) -> bool
        requires { Fits node }
        ensures { result ≡ is_goal self (number_of node) }
    {
        match node {
            Node::Together(a) => match self {
                Goal::OnePath(mask) => bits::has(mask, a),
                Goal::Parted(_) => false,
            },
            Node::Parted(a, b) => {
                let (Goal::OnePath(mask) | Goal::Parted(mask)) = self;
                bits::has(mask, a) & bits::has(mask, b)
            }
        }
    }
}

// The numbers lent to a search: at i the i-th node taken up, and at BACK + i the queue number of the node that it was taken up from.
// No two nodes are one and there are 1891 at most, so 4,096 numbers are enough, and what they held before is never read.
#[derive(Drop)]
pub struct Scratch<'a> {
    pub numbers: &'a mut [u16],
    pub ghost room: { 4096 ≤ length numbers.now },
}

const BACK: usize = 2048;

impl Scratch<'_> {
    // The queue number of the node that the i-th was taken up from.
    pub fn before(&self, i: usize) -> usize
        requires { i < 2048 }
        ensures { result ≡ back_of self.now.numbers.now i }
    {
        self.numbers[BACK + i] as usize
    }

    // The queue with the number of a node at its end, taken up from the one with queue number `from`.
    fn push(&mut self, tail: usize, number: u16, from: usize)
        requires { (tail < 2048) × (from < 2048) }
        ensures { self.new.numbers.now ≡ enqueue self.old.numbers.now number from tail }
    {
        self.numbers[tail] = number;
        self.numbers[BACK + tail] = from as u16;
    }
}

// The search from a state to a goal: the queue number of the first that is found. No way to a goal is shorter than the one to it.
// What is lent stays as long.
pub fn to_goal(steps: &Steps, scratch: &mut Scratch, goal: Goal, start: usize) -> Option<usize>
    requires { start ≤ 60 }
    ensures says { Searched steps.now scratch.new.numbers.now goal start result }
    ensures kept { length scratch.new.numbers.now ≡ length scratch.old.numbers.now }
{
    let mut search = Search::begin(&mut *scratch, start);
    if goal.is_met(Node::Together(start)) {
        return Some(0);
    }
    while let Some((i, node)) = search.visit(steps, &mut *scratch) {
        if goal.is_met(node) {
            return Some(i);
        }
    }
    None
}

// The first position with two different loops back to itself over one text. What is lent stays as long.
pub fn first_pivot(steps: &Steps, scratch: &mut Scratch, positions: usize) -> Option<usize>
    requires { positions ≤ 60 }
    ensures says { (g : Graph) → Tables g steps.now → g.positions ≡ positions → IsFirstPivot g result }
    ensures kept { length scratch.new.numbers.now ≡ length scratch.old.numbers.now }
{
    let mut first = None;
    'pivots: for q in 1..=positions {
        let goal = Goal::Parted(bits::only(q));
        let mut search = Search::begin(&mut *scratch, q);
        while let Some((_, node)) = search.visit(steps, &mut *scratch) {
            if goal.is_met(node) {
                first = Some(q);
                break 'pivots;
            }
        }
    }
    first
}

// A search under way. `head` and `tail` bound the queue of nodes taken up whose steps are still to be gone through. Of the pairs one
// step on from the head, those whose first path is at a position outside `pending` are taken up already.
#[derive(Clone, Copy)]
pub struct Search {
    head: usize,
    tail: usize,
    pending: u64,
    seen: Seen,
}

impl Search {
    // A search that has taken up its first node.
    fn begin(scratch: &mut Scratch, start: usize) -> Search
        requires { start ≤ 60 }
        ensures says { (t : Steps) → Begun t scratch.new.numbers.now start result }
        ensures kept { length scratch.new.numbers.now ≡ length scratch.old.numbers.now }
    {
        scratch.push(0, start as u16, 0);
        Search {
            head: 0,
            tail: 1,
            pending: u64::MAX,
            seen: Seen::only(start),
        }
    }

    // One visit: one node more is taken up, the first new one that is a step on from the head of the queue, and given with its queue
    // number. A head with none is passed. It is safe and ends whatever the search and the lent numbers hold.
    fn visit(&mut self, steps: &Steps, scratch: &mut Scratch) -> Option<(usize, Node)>
        ensures says { Tried steps.now scratch.old.numbers.now scratch.new.numbers.now self.old self.new result }
        ensures kept { length scratch.new.numbers.now ≡ length scratch.old.numbers.now }
    {
        if BACK <= self.tail {
            self.head = self.tail;
            return None;
        }
        while self.head < self.tail {
            let x = Node::from(scratch.numbers[self.head]);
            if let Some(next) = steps.next_new(&self.seen, self.pending, x) {
                let i = self.tail;
                scratch.push(i, next.node.number(), self.head);
                self.seen.take_up(next.node);
                self.pending = next.pending;
                self.tail = i + 1;
                return Some((i, next.node));
            }
            self.head += 1;
            self.pending = u64::MAX;
        }
        None
    }
}
