// The exports of the alias table.
ghost use Rattle.slot_draw.specs.Alias as alias;

#[unsafe(no_mangle)]
pub extern "C" fn slot_draw_alias_new(
    weights: &[u64],
    odds: &mut [u64],
    links: &mut [u32],
    answer: &mut [u64; 3],
)
    ensures { alias.New weights.now odds.old links.old answer.new odds.new links.new }
{
    slot_draw::table::slot_draw_alias_new(weights, odds, links, answer);
}

#[unsafe(no_mangle)]
pub extern "C" fn slot_draw_alias_draw(
    odds: &[u64],
    links: &[u32],
    sum: u64,
    pool: &[u64],
    answer: &mut [u64; 3],
)
    ensures { alias.Draw odds.now links.now sum pool.now answer.new }
{
    slot_draw::table::slot_draw_alias_draw(odds, links, sum, pool, answer);
}

#[unsafe(no_mangle)]
pub extern "C" fn slot_draw_alias_check(
    weights: &[u64],
    odds: &[u64],
    links: &[u32],
    work: &mut [u64],
    answer: &mut [u64; 3],
)
    ensures { alias.Check weights.now odds.now links.now work.old answer.new work.new }
{
    slot_draw::table::slot_draw_alias_check(weights, odds, links, work, answer);
}

#[unsafe(no_mangle)]
pub extern "C" fn slot_draw_alias_weights(
    odds: &[u64],
    links: &[u32],
    sum: u64,
    output: &mut [u64],
    answer: &mut [u64; 3],
)
    ensures { alias.Weights odds.now links.now sum output.old answer.new output.new }
{
    slot_draw::table::slot_draw_alias_weights(odds, links, sum, output, answer);
}
