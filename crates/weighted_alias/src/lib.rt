// An alias table in two lent slices: for each slot its odds and a link. A pair of a slot and a number below the sum of the
// weights draws the slot itself where the number is below its odds, and else the slot that it is linked to.
//
// Every call takes any slices and any numbers; what it can't do it refuses, and then what was lent stays as it was.
#![tactic(auto)]

mod aliases;

ghost use Rattle.std.specs.Prelude.{◌≡◌, ◌<◌, length};
ghost use Rattle.refusal.specs.Answers.{tells};
ghost use Rattle.weighted_alias.specs.Tests as tests;
ghost use Rattle.weighted_alias.specs.WeightSum as weight_sum;
ghost use Rattle.weighted_alias.specs.New as new;
ghost use Rattle.weighted_alias.specs.Pair as pair;
ghost use Rattle.weighted_alias.specs.Draw as draw;

use aliases::Aliases;
use refusal::{Drawing, Refusal};

// The most slots that a table can have.
pub const MOST_SLOTS: usize = 4096;

// The number of slots, where a call can have so many and no length lent beside them is another.
pub fn slots(n: usize, unequal: bool) -> Result<usize, Refusal>
    ensures { tests.Slots n unequal result }
{
    if n == 0 {
        return Err(Refusal::InvalidInput);
    }
    if MOST_SLOTS < n {
        return Err(Refusal::Full);
    }
    if unequal {
        return Err(Refusal::BadLength);
    }
    Ok(n)
}

// The sum of the weights, where none is too large for their number and not all are 0.
pub fn weight_sum(weights: &[u64]) -> Result<u64, Refusal>
    ensures { weight_sum.Promise weights.now result }
{
    if weights.is_empty() {
        return Err(Refusal::InsufficientNonZero);
    }
    let max_weight_size = u64::MAX / weights.len() as u64;
    let mut sum = 0;
    for weight in weights {
        if max_weight_size < *weight {
            return Err(Refusal::InvalidWeight);
        }
        sum += *weight;
    }
    if sum == 0 {
        return Err(Refusal::InsufficientNonZero);
    }
    Ok(sum)
}

// The odds begin as n times the weight.
fn scale(weights: &[u64], odds: &mut [u64])
    requires { (length odds.old ≡ length weights.now) × new.Scales weights.now }
    ensures { odds.new ≡ new.scaled weights.now }
{
    let n = weights.len() as u64;
    for (i, weight) in weights.iter().enumerate() {
        odds[i] = n * *weight;
    }
}

// The table of weights that are not refused.
fn fill(weights: &[u64], odds: &mut [u64], links: &mut [u32], sum: u64)
    requires { new.Fills weights.now (length odds.old) (length links.old) sum }
    ensures { (odds.new ≡ new.odds_of weights.now) × (links.new ≡ new.links_of weights.now) }
{
    scale(weights, odds);
    let mut aliases = Aliases::split(odds, links, sum);
    aliases.pair_up();
    let small = aliases.small;
    let big = aliases.big;
    aliases.settle(small);
    aliases.settle(big);
}

// Writes the table of the weights, whatever odds and links held, and answers their sum.
pub fn new(weights: &[u64], odds: &mut [u64], links: &mut [u32]) -> Result<u64, Refusal>
    ensures { new.Promise weights.now odds.old links.old result odds.new links.new }
{
    let n = weights.len();
    slots(n, odds.len() != n || links.len() != n)?;
    let sum = weight_sum(weights)?;
    fill(weights, odds, links, sum);
    Ok(sum)
}

// What the pair of a slot and a number draws.
#[tactic(auto, unfolding(crate::specs::Pair::pair_end, crate::specs::Pair::far_link, crate::specs::Pair::drawn_by))]
fn pair(odds: &[u64], links: &[u32], slot: usize, number: u64) -> Result<usize, Refusal>
    requires { (slot < length odds.now) × (length links.now ≡ length odds.now) }
    ensures { tells result ≡ pair.pair_end odds.now links.now slot number }
{
    if number < odds[slot] {
        return Ok(slot);
    }
    let link = links[slot] as usize;
    if link < odds.len() {
        return Ok(link);
    }
    Err(Refusal::Damaged)
}

// The index that the words of a pool draw, the slot first, then the number below the sum, and how many words that takes.
fn drawn(odds: &[u64], links: &[u32], sum: u64, pool: &[u64]) -> Result<(usize, usize), Refusal>
    ensures { draw.Drawn odds.now links.now sum pool.now result }
{
    let n = odds.len();
    slots(n, links.len() != n)?;
    if sum == 0 {
        return Err(Refusal::InsufficientNonZero);
    }
    let (slot, first) = words::number_below(pool, n as u64)?;
    let (number, second) = words::number_below(&pool[first..], sum)?;
    let index = pair(odds, links, slot as usize, number)?;
    Ok((index, first + second))
}

// The draw, with the words that it consumed.
pub fn draw(odds: &[u64], links: &[u32], sum: u64, pool: &[u64]) -> Drawing
    ensures { draw.Promise odds.now links.now sum pool.now result }
{
    Drawing::from(drawn(odds, links, sum, pool))
}
