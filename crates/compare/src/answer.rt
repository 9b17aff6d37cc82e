// What the port answers to a call: the first few of eight numbers.
ghost use Rattle.std.specs.Prelude.{◌≤◌};

use binomial::SetupNumbers;
use refusal::Numbers;
use ziggurat::RoundNumbers;

#[derive(Clone, Copy, Debug, PartialEq, Eq)]
pub struct Answer {
    pub numbers: [u64; 8],
    count: usize,
    ghost in_range: { count ≤ 8 },
}

impl Answer {
    // Begins with these numbers.
    fn new<const N: usize>(numbers: [u64; N]) -> Self
        requires { N ≤ 8 }
    {
        let mut all = [0; 8];
        all[..N].copy_from_slice(&numbers);
        Answer {
            numbers: all,
            count: N,
        }
    }

    pub(crate) fn agrees(&self, expected: &[u64]) -> bool {
        &self.numbers[..self.count] == expected
    }
}

impl From<Numbers> for Answer {
    fn from(told: Numbers) -> Self {
        Answer::new([told.number, told.first, told.second])
    }
}

impl From<SetupNumbers> for Answer {
    fn from(told: SetupNumbers) -> Self {
        let cells: [u64; 7] = told.into();
        Answer::new(cells)
    }
}

impl From<RoundNumbers> for Answer {
    fn from(told: RoundNumbers) -> Self {
        let cells: [u64; 5] = told.into();
        Answer::new(cells)
    }
}
