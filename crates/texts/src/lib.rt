// The text of a shortest way to a goal: a search from a state, and the letters shown of the nodes on the way to what it finds, written
// from the last one to the first.
#![tactic(auto)]

ghost use Rattle.std.specs.Prelude.{◌≡◌, ℕ, ◌+◌, ◌≤◌, ◌<◌, length, get_or};
ghost use Rattle.letters.specs.LetterSet.{OnlyLetters};
ghost use Rattle.nodes.specs.Nodes.{Step};
ghost use Rattle.search.specs.Search.{Behind};
ghost use Rattle.texts.specs.Texts.{Showable, letter_at, LeadsBack, Traced, Shown};

use letters::LetterSet;
use nodes::{Node, Steps};
use search::{Goal, Scratch};

// Searches, and writes the text of a shortest way to a goal at base, of sets that hold letters only: its length, or None where there is no
// goal. What is lent to the search stays as long.
pub fn spell(
    steps: &Steps,
    sets: &[LetterSet; 61],
    scratch: &mut Scratch,
    evidence: &mut [u8],
    goal: Goal,
    start: usize,
    base: usize,
) -> Option<usize>
    requires { (start ≤ 60) × (base + 1890 ≤ length evidence.old) × OnlyLetters sets.now × ((x y : ℕ) → Step steps.now x y → Showable sets.now y) }
    ensures says { Shown sets.now steps.now evidence.old evidence.new goal start base result }
    ensures kept { length scratch.new.numbers.now ≡ length scratch.old.numbers.now }
{
    let i = search::to_goal(steps, &mut *scratch, goal, start)?;
    let n = steps_to(&*scratch, i);
    trace(sets, &*scratch, &mut *evidence, i, base, n);
    Some(n)
}

// The same, whatever the sets hold: of their letters the first in order is written, and never 127.
pub fn show(
    steps: &Steps,
    sets: &[LetterSet; 61],
    scratch: &mut Scratch,
    evidence: &mut [u8],
    goal: Goal,
    start: usize,
    base: usize,
) -> Option<usize>
    requires { (start ≤ 60) × (base + 1890 ≤ length evidence.old) × ((x y : ℕ) → Step steps.now x y → Showable sets.now y) }
    ensures says { Shown sets.now steps.now evidence.old evidence.new goal start base result }
    ensures kept { length scratch.new.numbers.now ≡ length scratch.old.numbers.now }
{
    let cut = letters::letters_of(sets);
    spell(steps, &cut, scratch, evidence, goal, start, base)
}

// How many steps lead to the i-th node of the queue.
fn steps_to(scratch: &Scratch, i: usize) -> usize
    requires { LeadsBack scratch.now.numbers.now (i + 1) }
    ensures { Behind scratch.now.numbers.now i result × (result ≤ i) }
{
    let mut j = i;
    let mut n = 0;
    while 0 < j {
        n += 1;
        j = scratch.before(j);
    }
    n
}

// The letters of those n steps, written at base, the last one first.
fn trace(
    sets: &[LetterSet; 61],
    scratch: &Scratch,
    evidence: &mut [u8],
    i: usize,
    base: usize,
    n: usize,
)
    requires { OnlyLetters sets.now × LeadsBack scratch.now.numbers.now (i + 1) × Behind scratch.now.numbers.now i n × ((j : ℕ) → 0 < j → j ≤ i → Showable sets.now (get_or scratch.now.numbers.now j 0)) × (base + n ≤ length evidence.old) }
    ensures { Traced sets.now scratch.now.numbers.now evidence.old evidence.new i base n }
{
    let mut at = i;
    let mut k = base + n;
    while 0 < at {
        k -= 1;
        evidence[k] = letter(sets, scratch.numbers[at]);
        at = scratch.before(at);
    }
}

// The letter shown of the node with a number: the first in order that the sets of both its sides hold.
fn letter(sets: &[LetterSet; 61], number: u16) -> u8
    requires { OnlyLetters sets.now × Showable sets.now number }
    ensures { result ≡ letter_at sets.now number }
{
    let (a, b) = Node::from(number).sides();
    sets[a].intersection(sets[b]).first_of_letters()
}
