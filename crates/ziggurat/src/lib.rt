// One round of the ziggurat over two lent tables: the edges X of its layers and the densities F at them. A round ends with a
// finished sample, in the tail, or in the wedge of a layer, where the caller keeps x if the height is below its density.
#![tactic(auto)]

ghost use Rattle.std.specs.Prelude.{◌≡◌, ◌+◌, ◌<◌, length};
ghost use Rattle.refusal.specs.Answers.{tells};
ghost use Rattle.ziggurat.specs.Round as round;
ghost use Rattle.ziggurat.specs.Numbers as numbers;

use refusal::Refusal;

// The length of both tables: one more than the layers.
pub const TABLE_LENGTH: usize = 257;

// What a round ends with: a sample with x, a tail with u, or a wedge with x and the height.
#[derive(Clone, Copy, Debug, PartialEq)]
pub enum Rounded {
    Sample(f64),
    Tail(f64),
    Wedge(f64, f64),
}

// A round, with the words that it consumed.
#[derive(Clone, Copy, Debug, PartialEq)]
pub struct Rounding {
    pub outcome: Result<Rounded, Refusal>,
    pub words: usize,
}

// A round as numbers: 0, or the number of the refusal; 1 for a sample, 2 for a tail and 3 for a wedge; the bits of its floats;
// the words. What a round does not have is 0.
#[derive(Clone, Copy, Debug, Default, PartialEq, Eq)]
pub struct RoundNumbers {
    pub number: u64,
    pub kind: u64,
    pub first: u64,
    pub second: u64,
    pub words: u64,
}

impl Rounded {
    // The words that a round takes.
    fn words(self) -> usize
        ensures { result ≡ round.words_of self }
    {
        match self {
            Rounded::Sample(_) | Rounded::Tail(_) => 1,
            Rounded::Wedge(_, _) => 2,
        }
    }
}

impl Rounding {
    // How a round ended says how many words it took.
    fn new(outcome: Result<Rounded, Refusal>) -> Rounding
        ensures { round.Ended outcome result }
    {
        let words = outcome.map_or(0, Rounded::words);
        Rounding { outcome, words }
    }
}

impl From<Rounding> for RoundNumbers {
    ghost from_gives = { λ rounding told. told ≡ numbers.round_numbers rounding };

    fn from(rounding: Rounding) -> RoundNumbers {
        let none = RoundNumbers {
            words: rounding.words as u64,
            ..RoundNumbers::default()
        };
        match rounding.outcome {
            Ok(Rounded::Sample(x)) => RoundNumbers {
                kind: 1,
                first: words::bits_of(x),
                ..none
            },
            Ok(Rounded::Tail(u)) => RoundNumbers {
                kind: 2,
                first: words::bits_of(u),
                ..none
            },
            Ok(Rounded::Wedge(x, height)) => RoundNumbers {
                kind: 3,
                first: words::bits_of(x),
                second: words::bits_of(height),
                ..none
            },
            Err(r) => RoundNumbers {
                number: r.number(),
                ..none
            },
        }
    }
}

// A round in five cells, in the order of its numbers.
impl From<RoundNumbers> for [u64; 5] {
    ghost from_gives = { λ told cells. cells ≡ numbers.five told };

    fn from(told: RoundNumbers) -> [u64; 5] {
        [told.number, told.kind, told.first, told.second, told.words]
    }
}

// Whether x, or its magnitude where symmetric, is below the edge.
#[tactic(auto, using(crate::proofs::Magnitude::magnitude_is))]
fn inside(symmetric: bool, x: f64, edge: f64) -> bool
    ensures { result ≡ round.inside symmetric x edge }
{
    if symmetric { x.abs() < edge } else { x < edge }
}

// The u of a word.
fn u_of(symmetric: bool, word: u64) -> f64
    ensures { result ≡ round.u_of symmetric word }
{
    if symmetric {
        words::symmetric_u(word)
    } else {
        words::one_sided_u(word)
    }
}

// The wedge of layer i, which takes the pool's second word.
fn wedge(densities: &[f64], i: usize, x: f64, pool: &[u64]) -> Result<Rounded, Refusal>
    requires { i + 1 < length densities.now }
    ensures { tells result ≡ round.wedge_rule densities.now i x pool.now }
{
    let word = pool.get(1).ok_or(Refusal::OutOfWords)?;
    let v = words::unit(*word);
    let low = densities[i + 1];
    let high = densities[i];
    Ok(Rounded::Wedge(x, low + (high - low) * v))
}

// The round that the words of a pool make, or why there is none.
#[tactic(auto, unfolding(crate::specs::Round::rule, crate::specs::Round::shape_of))]
fn make_round(
    edges: &[f64],
    densities: &[f64],
    symmetric: bool,
    pool: &[u64],
) -> Result<Rounded, Refusal>
    ensures { tells result ≡ round.rule symmetric edges.now densities.now pool.now }
{
    if edges.len() != TABLE_LENGTH || densities.len() != TABLE_LENGTH {
        return Err(Refusal::BadLength);
    }
    let word = *pool.first().ok_or(Refusal::OutOfWords)?;
    let i = (word % 256) as usize;
    let u = u_of(symmetric, word);
    let x = u * edges[i];
    if inside(symmetric, x, edges[i + 1]) {
        return Ok(Rounded::Sample(x));
    }
    if i == 0 {
        return Ok(Rounded::Tail(u));
    }
    wedge(densities, i, x, pool)
}

// The round that the words of a pool make.
#[tactic(auto, using(crate::proofs::Promised::round_ends))]
pub fn round(edges: &[f64], densities: &[f64], symmetric: bool, pool: &[u64]) -> Rounding
    ensures { round.Promise symmetric edges.now densities.now pool.now result }
{
    Rounding::new(make_round(edges, densities, symmetric, pool))
}
