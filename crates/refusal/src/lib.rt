// Why a call is refused, and the answers of the calls as numbers: each call gives a value, or a refusal.
#![tactic(auto)]

ghost use Rattle.std.specs.Prelude.{◌≡◌, ℕ};
ghost use Rattle.refusal.specs.Number.{number};
ghost use Rattle.refusal.specs.Answers as answers;

// The refusals by their numbers, 1 to 17.
#[derive(Clone, Copy, Debug, PartialEq, Eq)]
pub enum Refusal {
    InvalidInput = 1,
    InvalidWeight,
    InsufficientNonZero,
    Overflow,
    ProbabilityTooSmall,
    ProbabilityTooLarge,
    BadCount,
    BadIndex,
    BadTarget,
    Full,
    Empty,
    OutOfWords,
    Damaged,
    BadLength,
    TooManyTrials,
    NeedsBtpe,
    NeedsPoisson,
}

impl Refusal {
    pub fn number(self) -> u64
        ensures { result ≡ number self }
    {
        self as u64
    }
}

// An answer as three numbers: 0 and the values that were given, or the refusal's number and two zeros.
#[derive(Clone, Copy, Debug, PartialEq, Eq)]
pub struct Numbers {
    pub number: u64,
    pub first: u64,
    pub second: u64,
}

impl Numbers {
    pub fn given(first: u64, second: u64) -> Numbers
        ensures { result ≡ answers.given first second }
    {
        Numbers {
            number: 0,
            first,
            second,
        }
    }

    pub fn refused(r: Refusal) -> Numbers
        ensures { result ≡ answers.refused_by (number r) }
    {
        Numbers {
            number: r.number(),
            first: 0,
            second: 0,
        }
    }
}

// What a call gives, as the two values that stand for it.
pub trait Values {
    ghost values: { Self → ℕ × ℕ };

    fn values(self) -> (u64, u64)
        ensures { result ≡ values self };
}

// 1 for yes, 0 for no.
impl Values for bool {
    ghost values = { answers.yes_no };

    fn values(self) -> (u64, u64) {
        (u64::from(self), 0)
    }
}

// A count, or an index.
impl Values for usize {
    ghost values = { answers.alone };

    fn values(self) -> (u64, u64) {
        (self as u64, 0)
    }
}

// A weight.
impl Values for u64 {
    ghost values = { answers.alone };

    fn values(self) -> (u64, u64) {
        (self, 0)
    }
}

// A number with a count or a place beside it.
impl Values for (u64, usize) {
    ghost values = { λ v. v };

    fn values(self) -> (u64, u64) {
        (self.0, self.1 as u64)
    }
}

impl<T: Values> From<Result<T, Refusal>> for Numbers {
    ghost from_gives = { λ answer told. told ≡ answers.in_numbers T.values (answers.tells answer) };

    fn from(answer: Result<T, Refusal>) -> Numbers {
        match answer {
            Ok(value) => {
                let (first, second) = value.values();
                Numbers::given(first, second)
            }
            Err(r) => Numbers::refused(r),
        }
    }
}

// A draw from a pool, with the words that it consumed.
#[derive(Clone, Copy, Debug, PartialEq, Eq)]
pub struct Drawing {
    pub outcome: Result<usize, Refusal>,
    pub words: usize,
}

impl Drawing {
    // A draw that ended so after it had used some words: where it is refused it consumes none.
    pub fn new(outcome: Result<usize, Refusal>, used: usize) -> Drawing
        ensures { answers.Ended outcome used result }
    {
        let words = if outcome.is_ok() { used } else { 0 };
        Drawing { outcome, words }
    }
}

// A draw that gave an index and took so many words, or was refused.
impl From<Result<(usize, usize), Refusal>> for Drawing {
    ghost from_gives = { λ drawn d. d ≡ answers.drawing drawn };

    fn from(drawn: Result<(usize, usize), Refusal>) -> Drawing {
        match drawn {
            Ok((index, words)) => Drawing::new(Ok(index), words),
            Err(r) => Drawing::new(Err(r), 0),
        }
    }
}

// The second value is the words consumed.
impl From<Drawing> for Numbers {
    ghost from_gives = { λ d told. told ≡ answers.drawing_numbers d };

    fn from(drawing: Drawing) -> Numbers {
        let told = Numbers::from(drawing.outcome);
        Numbers {
            second: drawing.words as u64,
            ..told
        }
    }
}
