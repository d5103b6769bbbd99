// The interval after an atom, from the byte after its `{` on, and its bounds. What is read is at the front of any text.
#![tactic(auto)]

ghost use Rattle.std.specs.Prelude.{◌≡◌, ◌≤◌};
ghost use Rattle.pattern.specs.Parts.{out_of_bounds};
ghost use Rattle.pattern.specs.Grammar.{read_interval};
ghost use Rattle.bounds.specs.Bounds.{bounds_of, OneDigitMore, ReadsBound, ReadsUpper, ReadsInterval};

// What ends an interval.
const CLOSE: u8 = b'}';

// An interval that was read: its lower bound, and its upper bound where it is not endless.
#[derive(Clone, Copy)]
pub struct IntervalRead {
    pub lower: usize,
    pub upper: Option<usize>,
}

// The interval at the front of a text, and the text after it; `None` where the grammar has none there.
pub fn interval(text: &[u8]) -> Option<(IntervalRead, &[u8])>
    ensures { ReadsInterval (read_interval text.now) result }
{
    let (lower, rest) = bound(text)?;
    let (upper, rest) = match rest {
        [CLOSE, rest @ ..] => (Some(lower), rest),
        [b',', rest @ ..] => upper(rest)?,
        _ => return None,
    };
    Some((IntervalRead { lower, upper }, rest))
}

// What follows the `,` of an interval: its end, or an upper bound and the end.
fn upper(text: &[u8]) -> Option<(Option<usize>, &[u8])>
    ensures { ReadsUpper text.now result }
{
    match text {
        [CLOSE, rest @ ..] => Some((None, rest)),
        _ => match bound(text)? {
            (upper, [CLOSE, rest @ ..]) => Some((Some(upper), rest)),
            _ => None,
        },
    }
}

// Does refusal 11 name its bounds.
pub fn out_of_bounds(i: IntervalRead) -> bool
    ensures { result ≡ out_of_bounds (bounds_of i) }
{
    255 < i.lower
        || i.upper
            .is_some_and(|upper| upper == 0 || upper < i.lower || 255 < upper)
}

// The bound at the front of a text: up to three digits, one at least.
fn bound(text: &[u8]) -> Option<(usize, &[u8])>
    ensures { ReadsBound text.now result }
{
    match text {
        [b'0'..=b'9', ..] => {
            let (one, rest) = digit_more(0, text);
            let (two, rest) = digit_more(one, rest);
            let three = digit_more(two, rest);
            Some(three)
        }
        _ => None,
    }
}

// A bound that is being read, with one digit more, where there is one: its value so far, and the text after it.
fn digit_more(value: usize, text: &[u8]) -> (usize, &[u8])
    requires { value ≤ 99 }
    ensures { OneDigitMore value text.now result.0 result.1.now }
{
    match text {
        [d @ b'0'..=b'9', rest @ ..] => (value * 10 + ((*d - b'0') as usize), rest),
        _ => (value, text),
    }
}
