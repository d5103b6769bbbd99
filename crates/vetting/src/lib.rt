// The verdict of a pattern, by search. The search for the first pivot decides whether it is runaway; one more decides between single
// and steady; and the way to a goal is the text that shows the verdict.
#![tactic(auto)]

ghost use Rattle.std.specs.Prelude.{◌≤◌, length};
ghost use Rattle.graph.specs.Built.{graph_of_built};
ghost use Rattle.search.specs.Search.{IsFirstPivot};
ghost use Rattle.shares.specs.Tables.{Tables};
ghost use Rattle.vetting.specs.Answers.{Vettable, Reported, Judged};

use graph::Built;
use nodes::Steps;
use search::{Goal, Scratch};

// A verdict, with the lengths of the texts at the beginning of the evidence that show it: of a steady pattern a shortest text with two
// readings; of a runaway one a shortest way to its first pivot, a text with two loops there, and a way to an end.
#[derive(Clone, Copy, PartialEq, Eq, Debug)]
pub enum Verdict {
    Single,
    Steady { text: u32 },
    Runaway { x: u32, y: u32, z: u32 },
}

// What vetting gives. A built pattern is never refused.
#[derive(Clone, Copy, PartialEq, Eq, Debug)]
pub struct Vetted {
    pub positions: u8,
    pub verdict: Verdict,
}

// The verdict of a pattern, with its evidence; `more` is the table of its links beyond the first. 4,096 bytes and 4,096 numbers are
// enough, whatever they hold.
pub fn vet(b: Built, more: &[u8; 3721], evidence: &mut [u8], scratch: &mut [u16]) -> Vetted
    requires { Vettable b more.now × (4096 ≤ length evidence.old) × (4096 ≤ length scratch.old) }
    ensures { Judged (graph_of_built b more.now) evidence.old evidence.new result }
{
    let steps = Steps {
        follow: b.follow,
        doubles: shares::double_rows(&b, more),
        shares: shares::share_rows_of_letters(&b),
    };
    let mut scratch = Scratch { numbers: scratch };
    let verdict = match search::first_pivot(&steps, &mut scratch, b.positions) {
        None => {
            let goal = Goal::Parted(b.lasts);
            match texts::spell(&steps, &b.letters, &mut scratch, &mut *evidence, goal, 0, 0) {
                None => Verdict::Single,
                Some(n) => Verdict::Steady { text: n as u32 },
            }
        }
        Some(q) => runaway(&b, more, &steps, &mut *evidence, &mut scratch, q),
    };
    Vetted {
        positions: b.positions as u8,
        verdict,
    }
}

// Of a pattern whose first pivot is q, and whose links `more` counts. Where no letters are shared, paths never part.
fn runaway(
    b: &Built,
    more: &[u8; 3721],
    steps: &Steps,
    evidence: &mut [u8],
    scratch: &mut Scratch,
    q: usize,
) -> Verdict
    requires { let g = graph_of_built b.now more.now in Vettable b.now more.now × Tables g steps.now × IsFirstPivot g (Some q) × (4096 ≤ length evidence.old) }
    ensures { Reported (graph_of_built b.now more.now) evidence.old evidence.new result }
{
    let sets = &b.letters;
    let one_path = Steps {
        shares: [0; 61],
        ..*steps
    };
    let here = bits::only(q);
    let arrive = Goal::OnePath(here);
    let loops = Goal::Parted(here);
    let leave = Goal::OnePath(b.lasts);
    let x = texts::spell(&one_path, sets, &mut *scratch, &mut *evidence, arrive, 0, 0).unwrap();
    let y = texts::spell(steps, sets, &mut *scratch, &mut *evidence, loops, q, x).unwrap();
    let z = texts::spell(
        &one_path,
        sets,
        &mut *scratch,
        &mut *evidence,
        leave,
        q,
        x + y,
    )
    .unwrap();
    Verdict::Runaway {
        x: x as u32,
        y: y as u32,
        z: z as u32,
    }
}
