// The exports of the tree.
ghost use Rattle.slot_draw.specs.Tree as tree;

#[unsafe(no_mangle)]
pub extern "C" fn slot_draw_tree_new(store: &mut [u64], weights: &[u64], answer: &mut [u64; 3])
    ensures { tree.New store.old weights.now answer.new store.new }
{
    slot_draw::tree::slot_draw_tree_new(store, weights, answer);
}

#[unsafe(no_mangle)]
pub extern "C" fn slot_draw_tree_is_valid(store: &[u64], count: usize, answer: &mut [u64; 3])
    ensures { tree.IsValid store.now count answer.new }
{
    slot_draw::tree::slot_draw_tree_is_valid(store, count, answer);
}

#[unsafe(no_mangle)]
pub extern "C" fn slot_draw_tree_get(
    store: &[u64],
    count: usize,
    index: usize,
    answer: &mut [u64; 3],
)
    ensures { tree.Get store.now count index answer.new }
{
    slot_draw::tree::slot_draw_tree_get(store, count, index, answer);
}

#[unsafe(no_mangle)]
pub extern "C" fn slot_draw_tree_pop(store: &mut [u64], count: usize, answer: &mut [u64; 3])
    ensures { tree.Pop store.old count answer.new store.new }
{
    slot_draw::tree::slot_draw_tree_pop(store, count, answer);
}

#[unsafe(no_mangle)]
pub extern "C" fn slot_draw_tree_push(
    store: &mut [u64],
    count: usize,
    weight: u64,
    answer: &mut [u64; 3],
)
    ensures { tree.Push store.old count weight answer.new store.new }
{
    slot_draw::tree::slot_draw_tree_push(store, count, weight, answer);
}

#[unsafe(no_mangle)]
pub extern "C" fn slot_draw_tree_update(
    store: &mut [u64],
    count: usize,
    index: usize,
    weight: u64,
    answer: &mut [u64; 3],
)
    ensures { tree.Update store.old count index weight answer.new store.new }
{
    slot_draw::tree::slot_draw_tree_update(store, count, index, weight, answer);
}

#[unsafe(no_mangle)]
pub extern "C" fn slot_draw_tree_walk(
    store: &[u64],
    count: usize,
    target: u64,
    answer: &mut [u64; 3],
)
    ensures { tree.Walk store.now count target answer.new }
{
    slot_draw::tree::slot_draw_tree_walk(store, count, target, answer);
}

#[unsafe(no_mangle)]
pub extern "C" fn slot_draw_tree_draw(
    store: &[u64],
    count: usize,
    pool: &[u64],
    answer: &mut [u64; 3],
)
    ensures { tree.Draw store.now count pool.now answer.new }
{
    slot_draw::tree::slot_draw_tree_draw(store, count, pool, answer);
}

#[unsafe(no_mangle)]
pub extern "C" fn slot_draw_tree_is_sound(store: &[u64], count: usize, answer: &mut [u64; 3])
    ensures { tree.IsSound store.now count answer.new }
{
    slot_draw::tree::slot_draw_tree_is_sound(store, count, answer);
}
