// The functions of the alias table. The answer of each is three cells.
ghost use Rattle.slot_draw.specs.Alias as alias;

use crate::answer::tell;

pub fn slot_draw_alias_new(
    weights: &[u64],
    odds: &mut [u64],
    links: &mut [u32],
    answer: &mut [u64; 3],
)
    ensures { alias.New weights.now odds.old links.old answer.new odds.new links.new }
{
    tell(answer, weighted_alias::new(weights, odds, links));
}

pub fn slot_draw_alias_draw(
    odds: &[u64],
    links: &[u32],
    sum: u64,
    pool: &[u64],
    answer: &mut [u64; 3],
)
    ensures { alias.Draw odds.now links.now sum pool.now answer.new }
{
    tell(answer, weighted_alias::draw(odds, links, sum, pool));
}

pub fn slot_draw_alias_check(
    weights: &[u64],
    odds: &[u64],
    links: &[u32],
    work: &mut [u64],
    answer: &mut [u64; 3],
)
    ensures { alias.Check weights.now odds.now links.now work.old answer.new work.new }
{
    tell(answer, alias_checker::check(weights, odds, links, work));
}

pub fn slot_draw_alias_weights(
    odds: &[u64],
    links: &[u32],
    sum: u64,
    output: &mut [u64],
    answer: &mut [u64; 3],
)
    ensures { alias.Weights odds.now links.now sum output.old answer.new output.new }
{
    tell(answer, alias_checker::weights(odds, links, sum, output));
}
