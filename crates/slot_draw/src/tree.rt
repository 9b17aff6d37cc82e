// The functions of the tree. The answer of each is three cells.
ghost use Rattle.slot_draw.specs.Tree as tree;

use crate::answer::tell;

pub fn slot_draw_tree_new(store: &mut [u64], weights: &[u64], answer: &mut [u64; 3])
    ensures { tree.New store.old weights.now answer.new store.new }
{
    tell(answer, weighted_tree::new(store, weights));
}

pub fn slot_draw_tree_is_valid(store: &[u64], count: usize, answer: &mut [u64; 3])
    ensures { tree.IsValid store.now count answer.new }
{
    tell(answer, weighted_tree::is_valid(store, count));
}

pub fn slot_draw_tree_get(store: &[u64], count: usize, index: usize, answer: &mut [u64; 3])
    ensures { tree.Get store.now count index answer.new }
{
    tell(answer, weighted_tree::get(store, count, index));
}

pub fn slot_draw_tree_pop(store: &mut [u64], count: usize, answer: &mut [u64; 3])
    ensures { tree.Pop store.old count answer.new store.new }
{
    tell(answer, weighted_tree::pop(store, count));
}

pub fn slot_draw_tree_push(store: &mut [u64], count: usize, weight: u64, answer: &mut [u64; 3])
    ensures { tree.Push store.old count weight answer.new store.new }
{
    tell(answer, weighted_tree::push(store, count, weight));
}

pub fn slot_draw_tree_update(
    store: &mut [u64],
    count: usize,
    index: usize,
    weight: u64,
    answer: &mut [u64; 3],
)
    ensures { tree.Update store.old count index weight answer.new store.new }
{
    tell(answer, weighted_tree::update(store, count, index, weight));
}

pub fn slot_draw_tree_walk(store: &[u64], count: usize, target: u64, answer: &mut [u64; 3])
    ensures { tree.Walk store.now count target answer.new }
{
    tell(answer, weighted_tree::walk(store, count, target));
}

pub fn slot_draw_tree_draw(store: &[u64], count: usize, pool: &[u64], answer: &mut [u64; 3])
    ensures { tree.Draw store.now count pool.now answer.new }
{
    tell(answer, weighted_tree::draw(store, count, pool));
}

pub fn slot_draw_tree_is_sound(store: &[u64], count: usize, answer: &mut [u64; 3])
    ensures { tree.IsSound store.now count answer.new }
{
    tell(answer, weighted_tree::is_sound(store, count));
}
