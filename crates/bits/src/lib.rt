// Sets of the numbers 0 to 63 in a u64: the number i is a member where bit i is 1, and 0 is the empty set.
// Every contract says of each number j, also of those past 63, whether the result has it.
#![tactic(auto)]

ghost use Rattle.std.specs.Prelude.{◌≡◌, Bool, not, ◌&&◌, ◌||◌, ℕ, ◌-◌, ◌<◌, ◌≤◌, eqb, ltb, leb};
ghost use Rattle.std.specs.Iterator.{at_most};
ghost use Rattle.basics.specs.Folds.{Less};
ghost use Rattle.bits.specs.Bits.{has_bit, Least, TakesLeast, Gives};

// How many numbers a set can have.
const WIDTH: usize = 64;

// Is i a member.
pub fn has(mask: u64, i: usize) -> bool
    requires { i < 64 }
    ensures { result ≡ has_bit mask i }
{
    (mask >> i) & 1 == 1
}

// The set of i alone.
pub fn only(i: usize) -> u64
    requires { i < 64 }
    ensures { (j : ℕ) → has_bit result j ≡ eqb i j }
{
    1 << i
}

// The members, and i, which may be one of them already.
pub fn with(mask: u64, i: usize) -> u64
    requires { i < 64 }
    ensures { (j : ℕ) → has_bit result j ≡ (has_bit mask j || eqb i j) }
{
    mask | (1 << i)
}

// The members of a and those of b.
pub fn union(a: u64, b: u64) -> u64
    ensures { (j : ℕ) → has_bit result j ≡ (has_bit a j || has_bit b j) }
{
    a | b
}

// The members of x and, on a condition, those of y.
pub fn union_if(yes: bool, x: u64, y: u64) -> u64
    ensures { (j : ℕ) → has_bit result j ≡ (has_bit x j || (yes && has_bit y j)) }
{
    if yes { union(x, y) } else { x }
}

// The members of a that are in b.
pub fn intersection(a: u64, b: u64) -> u64
    ensures { (j : ℕ) → has_bit result j ≡ (has_bit a j && has_bit b j) }
{
    a & b
}

// The members of a that are not in b.
pub fn difference(a: u64, b: u64) -> u64
    ensures { (j : ℕ) → has_bit result j ≡ (has_bit a j && not (has_bit b j)) }
{
    a & !b
}

// The numbers below n: none for 0, and all 64 for 64, where a shift by n is not defined.
pub fn below(n: usize) -> u64
    requires { n ≤ 64 }
    ensures { (j : ℕ) → has_bit result j ≡ ltb j n }
{
    if n == WIDTH { u64::MAX } else { (1 << n) - 1 }
}

// The numbers from `from` on that are below `to`: none where `to` is not the larger.
pub fn span(from: usize, to: usize) -> u64
    requires { (from ≤ 64) × (to ≤ 64) }
    ensures { (j : ℕ) → has_bit result j ≡ (leb from j && ltb j to) }
{
    difference(below(to), below(from))
}

// The members moved on by `by`. What would be past 63 is gone.
pub fn moved(mask: u64, by: usize) -> u64
    requires { by < 64 }
    ensures { (j : ℕ) → has_bit result j ≡ (leb by j && (ltb j 64 && has_bit mask (j - by))) }
{
    mask << by
}

// The least member of a set that is not empty.
pub fn lowest(mask: u64) -> usize
    requires { 0 < mask }
    ensures { (result < 64) × Least mask result }
{
    mask.trailing_zeros() as usize
}

// All members but the least of a set that is not empty. The number falls, and is the weight by which a walk of the set ends.
pub fn rest(mask: u64) -> u64
    requires { 0 < mask }
    ensures { (result < mask) × ((t : ℕ) → Least mask t → Less (has_bit mask) t (has_bit result)) }
{
    mask & (mask - 1)
}

// A set of numbers from which the least can be taken. A loop over `members` walks it, from the least member up.
pub trait NumberSet: Copy {
    // Is a number a member.
    ghost has: { Self → ℕ → Bool };

    // A number that falls with each member taken out.
    ghost weight: { Self → ℕ };

    // The least member and the set of the others; None for the empty set.
    fn take_least(self) -> Option<(usize, Self)>
        ensures { TakesLeast has weight self result };
}

impl NumberSet for u64 {
    ghost has = { has_bit };

    ghost weight = { λ m. m };

    fn take_least(self) -> Option<(usize, u64)> {
        if self == 0 {
            return None;
        }
        Some((lowest(self), rest(self)))
    }
}

// A walk through a set: the members still to come.
#[derive(Clone, Copy)]
pub struct Walker<S> {
    pub left: S,
}

impl<S: NumberSet> Iterator for Walker<S> {
    type Item = usize;

    ghost next_gives = { λ s r t. Gives S.has S.weight s.left r t.left };

    ghost remaining = { λ s. at_most (S.weight s.left) };

    fn next(&mut self) -> Option<usize> {
        let (least, others) = self.left.take_least()?;
        self.left = others;
        Some(least)
    }
}

// The members of a set, the least first.
pub fn members<S: NumberSet>(set: S) -> Walker<S>
    ensures { result.left ≡ set }
{
    Walker { left: set }
}
