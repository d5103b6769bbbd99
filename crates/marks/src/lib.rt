// Marking: the number of readings of an answer, its best credit and how many of its letters are taken, forward over the letters, by
// two rows in turn.
#![tactic(auto)]

ghost use Rattle.std.specs.Prelude.{◌≡◌, false, ℕ, ◌<◌, ◌≤◌, ◌*◌, ◌^◌, length, get_or};
ghost use Rattle.graph.specs.Graph.{Bounded, SingleLinks};
ghost use Rattle.graph.specs.Built.{graph_of_built};
ghost use Rattle.graph.specs.Taken.{letters_taken};
ghost use Rattle.marks.specs.Answers.{mark_of_sum, Answered, TablesSummed};

use frontier::{Links, Row, Sum};
use graph::Built;

// What marking gives: the number of readings, 2^63 where it is that or more, the most credit that one earns, which may be below
// zero, 0 where there is none, and how many letters were taken: up to and with the first after which no state is possible, or all.
#[derive(Clone, Copy)]
pub struct Marked {
    pub count: u64,
    pub mark: i32,
    pub taken: u32,
}

// The number of readings of an answer, its mark and the letters taken. A byte that is no letter is held by no position. `more` is the
// table of the links beyond the first; it is read only where `b.doubled` says that there is one.
pub fn mark(b: Built, more: &[u8; 3721], answer: &[u8]) -> Marked
    requires { Bounded (graph_of_built b more.now) × (b.doubled ≡ false → SingleLinks (graph_of_built b more.now)) × (length answer.now ≤ 4096) }
    ensures { Answered (graph_of_built b more.now) answer.now result.count result.mark × (result.taken ≡ letters_taken (graph_of_built b more.now) answer.now) }
{
    let before = columns::states_before(&b);
    let holders = columns::holders_of_letters(&b);
    let links = Links {
        before: &before,
        credits: &b.credits,
        more: if b.doubled { Some(more) } else { None },
    };
    let end = run(answer, &holders, &links, b.lasts);
    Marked {
        count: end.sum.count,
        mark: mark_of_sum(end.sum, answer.len()),
        taken: end.taken as u32,
    }
}

// The mark of a greatest sum of as many credits as there are letters, each raised by 9; 0 where there is no reading.
fn mark_of_sum(sum: Sum, letters: usize) -> i32
    requires { (sum.most ≤ 18 * letters) × (letters ≤ 4096) }
    ensures { result ≡ mark_of_sum sum.count sum.most letters }
{
    if sum.count == 0 {
        return 0;
    }
    sum.most as i32 - (9 * letters) as i32
}

// What the rows come to, and after how many letters.
#[derive(Clone, Copy)]
struct End {
    sum: Sum,
    taken: usize,
}

// The answer, letter by letter, until no state is possible. The two rows are used in turn.
fn run(answer: &[u8], holders: &[u64; 256], links: &Links, lasts: u64) -> End
    requires { (length answer.now ≤ 4096) × ((b : ℕ) → get_or holders.now b 0 < 2 ^ 61) × (length links.now.credits.now ≡ 61) }
    ensures { TablesSummed holders.now links.now lasts answer.now result.sum.count result.sum.most result.taken }
{
    let mut even = Row::start();
    let mut odd = Row::start();
    let mut row = &mut even;
    let mut next = &mut odd;
    let mut taken = 0;
    for &letter in answer {
        if row.active == 0 {
            break;
        }
        row.step(next, holders[letter as usize], links);
        std::mem::swap(&mut row, &mut next);
        taken += 1;
    }
    End {
        sum: row.total(lasts),
        taken,
    }
}
