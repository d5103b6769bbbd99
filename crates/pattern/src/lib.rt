// Patterns: their grammar, their refusals, their positions, their texts; and the refusals of both calls as a type.

#![tactic(auto)]

ghost use Rattle.std.specs.Prelude.{◌≡◌};
ghost use Rattle.pattern.specs.Refusals.{number_of};

// Why a call declines, with the number that the rules give it. Vetting has the two of lent memory, marking the two of an answer, and
// both have those of a pattern.
#[derive(Clone, Copy, Debug, PartialEq, Eq)]
pub enum Refusal {
    ShortEvidence = 1,
    ShortScratch = 2,
    LongPattern = 3,
    PatternNotLetters = 4,
    BrokenGrammar = 5,
    ReversedRange = 6,
    EmptyClass = 7,
    ManyPositions = 8,
    LongAnswer = 9,
    AnswerNotLetters = 10,
    WrongBounds = 11,
}

impl Refusal {
    // Its number.
    pub fn number(self) -> u8
        ensures { result ≡ number_of self }
    {
        self as u8
    }
}
