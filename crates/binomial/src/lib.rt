// How many of n trials of one chance succeed, drawn by inversion (BINV) from the words of a lent pool. A setup is made once
// from n and p and then handed to each draw by value; one that was not made here may hold any floats.
#![tactic(auto)]

ghost use Rattle.std.specs.Prelude.{◌≡◌, ◌≤◌};
ghost use Rattle.refusal.specs.Answers.{tells};
ghost use Rattle.binomial.specs.Setup as setup;
ghost use Rattle.binomial.specs.New as new;
ghost use Rattle.binomial.specs.Numbers as numbers;
ghost use Rattle.binomial.specs.Attempt as attempt;
ghost use Rattle.binomial.specs.Draw as draw;

use refusal::{Drawing, Refusal};

// The most trials that a setup can have.
pub const MOST_TRIALS: u64 = 1048576;

// The most successes that an attempt goes up to before it gives up.
const MOST_SUCCESSES: u64 = 110;

// What BINV needs: the chance r of no success, s and a for the step from one count to the next, the number of trials, and
// whether successes and failures are exchanged.
#[derive(Clone, Copy, Debug, PartialEq)]
pub struct Binv {
    pub r: f64,
    pub s: f64,
    pub a: f64,
    pub n: u64,
    pub flip: bool,
}

// How a setup draws.
#[derive(Clone, Copy, Debug, PartialEq)]
pub enum Method {
    Constant(u64),
    Binv(Binv),
}

// A setup as numbers: 0, or the number of the refusal; 0 for a constant and 1 for BINV; the constant, or n; the bits of r, s
// and a; 1 where it is flipped. What a setup does not have is 0.
#[derive(Clone, Copy, Debug, Default, PartialEq, Eq)]
pub struct SetupNumbers {
    pub number: u64,
    pub kind: u64,
    pub n: u64,
    pub r: u64,
    pub s: u64,
    pub a: u64,
    pub flip: u64,
}

impl From<Method> for SetupNumbers {
    ghost from_gives = { λ method told. told ≡ numbers.method_numbers method };

    fn from(method: Method) -> SetupNumbers {
        match method {
            Method::Constant(count) => SetupNumbers {
                n: count,
                ..SetupNumbers::default()
            },
            Method::Binv(b) => SetupNumbers {
                number: 0,
                kind: 1,
                n: b.n,
                r: words::bits_of(b.r),
                s: words::bits_of(b.s),
                a: words::bits_of(b.a),
                flip: u64::from(b.flip),
            },
        }
    }
}

impl From<Result<Method, Refusal>> for SetupNumbers {
    ghost from_gives = { λ answer told. told ≡ numbers.in_numbers (tells answer) };

    fn from(answer: Result<Method, Refusal>) -> SetupNumbers {
        match answer {
            Ok(method) => SetupNumbers::from(method),
            Err(r) => SetupNumbers {
                number: r.number(),
                ..SetupNumbers::default()
            },
        }
    }
}

// What the numbers of a setup stand for, whatever they are: kind 0 is a constant and any other BINV, and any flip but 0 flips. The
// number is not looked at.
impl From<SetupNumbers> for Method {
    ghost from_gives = { λ told method. method ≡ numbers.method_of told };

    fn from(told: SetupNumbers) -> Method {
        match told.kind {
            0 => Method::Constant(told.n),
            _ => Method::Binv(Binv {
                r: words::float_of(told.r),
                s: words::float_of(told.s),
                a: words::float_of(told.a),
                n: told.n,
                flip: told.flip != 0,
            }),
        }
    }
}

// A setup in seven cells, in the order of its numbers.
impl From<SetupNumbers> for [u64; 7] {
    ghost from_gives = { λ told cells. cells ≡ numbers.seven told };

    fn from(told: SetupNumbers) -> [u64; 7] {
        [
            told.number,
            told.kind,
            told.n,
            told.r,
            told.s,
            told.a,
            told.flip,
        ]
    }
}

impl From<[u64; 7]> for SetupNumbers {
    ghost from_gives = { λ cells told. told ≡ numbers.of_seven cells };

    fn from(cells: [u64; 7]) -> SetupNumbers {
        let [number, kind, n, r, s, a, flip] = cells;
        SetupNumbers {
            number,
            kind,
            n,
            r,
            s,
            a,
            flip,
        }
    }
}

// q to the power n, by the bits of n from the lowest up.
fn power(q: f64, n: u64) -> f64
    ensures { result ≡ setup.power_of q n }
{
    let mut made = 1.0;
    let mut current = q;
    let mut bits = n;
    while 0 < bits {
        if bits % 2 == 1 {
            made *= current;
        }
        current *= current;
        bits /= 2;
    }
    made
}

// The numbers of BINV for n trials of a chance that is neither 0 nor 1.
fn set_up(n: u64, p: f64) -> Result<Method, Refusal>
    requires { n ≤ 1048576 }
    ensures { tells result ≡ new.later_rule n p }
{
    let flip = p > 0.5;
    let smaller = if flip { 1.0 - p } else { p };
    if (n as f64) * smaller >= 10.0 {
        return Err(Refusal::NeedsBtpe);
    }
    let q = 1.0 - smaller;
    if q == 1.0 {
        return Err(Refusal::NeedsPoisson);
    }
    let r = power(q, n);
    let s = smaller / q;
    let a = ((n + 1) as f64) * s;
    Ok(Method::Binv(Binv { r, s, a, n, flip }))
}

// The setup for n trials of the chance p.
#[tactic(auto, unfolding(crate::specs::New::rule))]
pub fn new(n: u64, p: f64) -> Result<Method, Refusal>
    ensures { new.Promise n p result }
{
    if p < 0.0 || p.is_nan() {
        return Err(Refusal::ProbabilityTooSmall);
    }
    if p > 1.0 {
        return Err(Refusal::ProbabilityTooLarge);
    }
    if n > MOST_TRIALS {
        return Err(Refusal::TooManyTrials);
    }
    if p == 0.0 {
        return Ok(Method::Constant(0));
    }
    if p == 1.0 {
        return Ok(Method::Constant(n));
    }
    set_up(n, p)
}

impl Binv {
    // One attempt: goes up from 0 while what is left of the unit is above the chance of the count, which a NaN is not. Past
    // the most successes, or past n, it gives up.
    fn try_unit(self, unit: f64) -> Option<u64>
        ensures { result ≡ attempt.attempt_of self unit }
    {
        let mut u = unit;
        let mut r = self.r;
        for x in 0..=self.n.min(MOST_SUCCESSES) {
            if !(u > r) {
                return Some(x);
            }
            u -= r;
            r *= self.a / ((x + 1) as f64) - self.s;
        }
        None
    }

    // Attempts with one word after the other until one ends: the count, and how many words it took.
    fn invert(self, pool: &[u64]) -> Result<(usize, usize), Refusal>
        requires { self.n ≤ 1048576 }
        ensures { tells result ≡ draw.drawn (Method.Binv self) pool.now }
    {
        for (i, word) in pool.iter().enumerate() {
            if let Some(x) = self.try_unit(words::unit(*word)) {
                let count = if self.flip { self.n - x } else { x };
                return Ok((count as usize, i + 1));
            }
        }
        Err(Refusal::OutOfWords)
    }
}

// The count that a setup draws from the words of a pool, and how many words it took.
#[tactic(auto, unfolding(crate::specs::Draw::drawn))]
fn drawn(method: Method, pool: &[u64]) -> Result<(usize, usize), Refusal>
    ensures { tells result ≡ draw.drawn method pool.now }
{
    match method {
        Method::Constant(n) | Method::Binv(Binv { n, .. }) if n > MOST_TRIALS => {
            Err(Refusal::TooManyTrials)
        }
        Method::Constant(count) => Ok((count as usize, 0)),
        Method::Binv(b) => b.invert(pool),
    }
}

// The count that a setup draws from the words of a pool.
pub fn draw(method: Method, pool: &[u64]) -> Drawing
    ensures { draw.Promise method pool.now result }
{
    Drawing::from(drawn(method, pool))
}
