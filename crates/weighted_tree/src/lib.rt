// A tree of weights in a lent store of subtotals, eight bytes a slot. The count of slots is handed in and back.
//
// Cell i has the children 2i + 1 and 2i + 2, and holds its own weight with all that stand below it. Every call
// takes any store, any count and any number; what it can't do it refuses, and then the store stays as it was.
#![tactic(auto)]

mod path;
mod step;
mod tree;

ghost use Rattle.std.specs.Prelude.{◌≡◌, ◌<◌, ◌≤◌, ◌-◌, ◌^◌, ◌++◌, length, take, drop};
ghost use Rattle.counting.specs.Sum.{sum_of};
ghost use Rattle.refusal.specs.Answers.{tells};
ghost use Rattle.weighted_tree.specs.New as new;
ghost use Rattle.weighted_tree.specs.IsValid as is_valid;
ghost use Rattle.weighted_tree.specs.Get as get;
ghost use Rattle.weighted_tree.specs.Pop as pop;
ghost use Rattle.weighted_tree.specs.Push as push;
ghost use Rattle.weighted_tree.specs.Update as update;
ghost use Rattle.weighted_tree.specs.Walk as walk;
ghost use Rattle.weighted_tree.specs.Draw as draw;
ghost use Rattle.weighted_tree.specs.IsSound as is_sound;

use path::{change_parents, change_path};
use refusal::{Drawing, Refusal};
use tree::Tree;

// Copies the weights to the front of the store. The library's copy would have the archive ask for C's memmove.
fn copy_in(store: &mut [u64], weights: &[u64])
    requires { length weights.now ≤ length store.old }
    ensures { store.new ≡ weights.now ++ drop (length weights.now) store.old }
{
    for (i, weight) in weights.iter().enumerate() {
        store[i] = *weight;
    }
}

// Adds each of the first cells to its parent, from the last down to cell 1.
fn gather(store: &mut [u64], count: usize)
    requires { (count ≤ length store.old) × (sum_of (take count store.old) < 2 ^ 64) }
    ensures { store.new ≡ new.gathered (count - 1) store.old }
{
    for child in (1..count).rev() {
        store[(child - 1) / 2] += store[child];
    }
}

// Makes a tree of the weights in the store, whatever the store held.
pub fn new(store: &mut [u64], weights: &[u64]) -> Result<usize, Refusal>
    ensures { new.Promise store.old weights.now result store.new }
{
    let count = weights.len();
    Tree::of(store, count).map_err(|_| Refusal::Full)?;
    counting::sum(weights).ok_or(Refusal::Overflow)?;
    copy_in(store, weights);
    gather(store, count);
    Ok(count)
}

// Whether the tree can be drawn from.
#[tactic(auto, unfolding(crate::specs::IsValid::rule))]
pub fn is_valid(store: &[u64], count: usize) -> Result<bool, Refusal>
    ensures { is_valid.Promise store.now count result }
{
    let tree = Tree::of(store, count)?;
    Ok(0 < count && 0 < tree.total())
}

// The weight of a slot.
#[tactic(auto, unfolding(crate::specs::Get::rule, crate::specs::Path::sound_all, crate::specs::Tests::damaged))]
pub fn get(store: &[u64], count: usize, index: usize) -> Result<u64, Refusal>
    ensures { get.Promise store.now count index result }
{
    let tree = Tree::of(store, count)?;
    if count <= index {
        return Err(Refusal::BadIndex);
    }
    tree.weight_at(index).ok_or(Refusal::Damaged)
}

// Removes the last slot.
pub fn pop(store: &mut [u64], count: usize) -> Result<(u64, usize), Refusal>
    ensures { pop.Promise store.old count result store.new }
{
    let tree = Tree::of(store, count)?;
    let last = count.checked_sub(1).ok_or(Refusal::Empty)?;
    let weight = tree.weight_on_path(last).ok_or(Refusal::Damaged)?;
    change_parents(store, last, 0, weight);
    store[last] = 0;
    Ok((weight, last))
}

// Appends a slot at the end.
pub fn push(store: &mut [u64], count: usize, weight: u64) -> Result<usize, Refusal>
    ensures { push.Promise store.old count weight result store.new }
{
    let tree = Tree::of(store, count)?;
    if tree.is_full() {
        return Err(Refusal::Full);
    }
    if !tree.parents_sound(count) {
        return Err(Refusal::Damaged);
    }
    tree.total().checked_add(weight).ok_or(Refusal::Overflow)?;
    store[count] = weight;
    change_parents(store, count, weight, 0);
    Ok(count + 1)
}

// Changes the weight of a slot.
pub fn update(store: &mut [u64], count: usize, index: usize, weight: u64) -> Result<usize, Refusal>
    ensures { update.Promise store.old count index weight result store.new }
{
    let tree = Tree::of(store, count)?;
    if count <= index {
        return Err(Refusal::BadIndex);
    }
    let old = tree.weight_on_path(index).ok_or(Refusal::Damaged)?;
    let rise = weight.saturating_sub(old);
    let fall = old.saturating_sub(weight);
    tree.total().checked_add(rise).ok_or(Refusal::Overflow)?;
    change_path(store, index, rise, fall);
    Ok(count)
}

// The slot that a target draws.
#[tactic(auto, using(crate::proofs::Cells::cell_some), unfolding(crate::specs::Walk::rule, crate::specs::Walk::walk_end))]
pub fn walk(store: &[u64], count: usize, target: u64) -> Result<usize, Refusal>
    ensures { walk.Promise store.now count target result }
{
    let tree = Tree::of(store, count)?;
    let total = tree.total();
    if total == 0 {
        return Err(Refusal::InsufficientNonZero);
    }
    if total <= target {
        return Err(Refusal::BadTarget);
    }
    tree.descend(target)
}

// The slot that the words of a pool draw, and how many words it took.
fn drawn(store: &[u64], count: usize, pool: &[u64]) -> Result<(usize, usize), Refusal>
    ensures { tells result ≡ draw.drawn store.now count pool.now }
{
    let tree = Tree::of(store, count)?;
    let total = tree.total();
    if total == 0 {
        return Err(Refusal::InsufficientNonZero);
    }
    let Ok((target, words)) = words::number_below(pool, total) else {
        return Err(Refusal::OutOfWords);
    };
    let index = tree.descend(target)?;
    Ok((index, words))
}

// The slot that the words of a pool draw.
pub fn draw(store: &[u64], count: usize, pool: &[u64]) -> Drawing
    ensures { draw.Promise store.now count pool.now result }
{
    Drawing::from(drawn(store, count, pool))
}

// Whether all cells below the count are sound.
#[tactic(auto, unfolding(crate::specs::IsSound::rule))]
pub fn is_sound(store: &[u64], count: usize) -> Result<bool, Refusal>
    ensures { is_sound.Promise store.now count result }
{
    let tree = Tree::of(store, count)?;
    Ok(tree.all_sound())
}
