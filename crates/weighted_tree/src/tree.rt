// A lent store read as a tree: its cells, their weights, whether they are sound, and where a target leads.
ghost use Rattle.std.specs.Prelude.{◌≡◌, true, false, ◌<◌, ◌≤◌, length, MatchResult};
ghost use Rattle.std.specs.Bool.{then_some};
ghost use Rattle.refusal.specs.Answers.{tells};
ghost use Rattle.refusal.specs.declared.Refusal.TheVariants.{BadCount};
ghost use Rattle.weighted_tree.specs.Store.{cell_at, sound_at, weight_at};
ghost use Rattle.weighted_tree.specs.Path.{parents, path_of, indexes_below, sound_all};
ghost use Rattle.weighted_tree.specs.Tests.{bad_count, full};
ghost use Rattle.weighted_tree.specs.Walk.{walk_end, walk_path};

use crate::path::Parents;
use crate::step::{Step, step_from};
use refusal::Refusal;

// The most slots that a tree can have.
const MOST_SLOTS: usize = 4096;

// A store with its count of slots, which no call refuses.
#[derive(Clone, Copy, Debug, PartialEq, Eq)]
pub(crate) struct Tree<'a> {
    store: &'a [u64],
    count: usize,
    ghost few: { count ≤ 4096 },
    ghost lent: { count ≤ length store.now },
}

impl<'a> Tree<'a> {
    // The tree in a store, unless this may not be the count of the store.
    #[tactic(auto, unfolding(crate::specs::Tests::bad_count))]
    pub(crate) fn of(store: &'a [u64], count: usize) -> Result<Tree<'a>, Refusal>
        ensures { MatchResult result (λ t. (t.store.now ≡ store.now) × (t.count ≡ count) × (bad_count store.now count ≡ false)) (λ r. (r ≡ BadCount) × (bad_count store.now count ≡ true)) }
    {
        if MOST_SLOTS < count || store.len() < count {
            return Err(Refusal::BadCount);
        }
        Ok(Tree { store, count })
    }

    // Whether the store has no room for one slot more.
    #[tactic(auto, unfolding(crate::specs::Tests::full))]
    pub(crate) fn is_full(&self) -> bool
        ensures { result ≡ full self.now.store.now self.now.count }
    {
        self.count == MOST_SLOTS || self.count == self.store.len()
    }

    // A cell, which reads 0 at or beyond the count, whatever lies there.
    #[tactic(auto, unfolding(crate::specs::Store::cell_at))]
    pub(crate) fn subtotal(&self, index: usize) -> u64
        ensures { result ≡ cell_at self.now.store.now self.now.count index }
    {
        if index < self.count {
            self.store[index]
        } else {
            0
        }
    }

    pub(crate) fn total(&self) -> u64
        ensures { result ≡ cell_at self.now.store.now self.now.count 0 }
    {
        self.subtotal(0)
    }

    // The weight of a cell, which is what it holds above its children. An unsound cell, which holds less than they, has none.
    #[tactic(auto, unfolding(crate::specs::Store::weight_at, crate::specs::Store::sound_at, crate::specs::Store::children_at))]
    pub(crate) fn weight_at(&self, index: usize) -> Option<u64>
        requires { index < 4096 }
        ensures { result ≡ then_some (sound_at self.now.store.now self.now.count index) (weight_at self.now.store.now self.now.count index) }
    {
        let left = self.subtotal(2 * index + 1);
        let right = self.subtotal(2 * index + 2);
        self.subtotal(index).checked_sub(left)?.checked_sub(right)
    }

    // Whether a cell holds at least what its children hold.
    pub(crate) fn is_sound_at(&self, index: usize) -> bool
        requires { index < 4096 }
        ensures { result ≡ sound_at self.now.store.now self.now.count index }
    {
        self.weight_at(index).is_some()
    }

    // Whether each parent of a cell, up to cell 0, is sound.
    pub(crate) fn parents_sound(&self, index: usize) -> bool
        requires { index ≤ 4096 }
        ensures { result ≡ sound_all self.now.store.now self.now.count (parents index) }
    {
        Parents(index).all(|i| self.is_sound_at(i))
    }

    // The weight of a cell, if the cell and each parent of it are sound.
    #[tactic(auto, unfolding(crate::specs::Path::sound_all))]
    pub(crate) fn weight_on_path(&self, index: usize) -> Option<u64>
        requires { index < 4096 }
        ensures { result ≡ then_some (sound_all self.now.store.now self.now.count (path_of index)) (weight_at self.now.store.now self.now.count index) }
    {
        let weight = self.weight_at(index)?;
        self.parents_sound(index).then_some(weight)
    }

    // Whether each cell below the count is sound.
    pub(crate) fn all_sound(&self) -> bool
        ensures { result ≡ sound_all self.now.store.now self.now.count (indexes_below self.now.count) }
    {
        (0..self.count).rev().all(|i| self.is_sound_at(i))
    }

    // The cell where the walk from cell 0 with a target ends.
    pub(crate) fn descend(&self, target: u64) -> Result<usize, Refusal>
        requires { 0 < self.now.count }
        ensures { tells result ≡ walk_end self.now.store.now self.now.count (walk_path self.now.store.now self.now.count target) }
    {
        let mut index = 0;
        let mut rest = target;
        loop {
            let left = self.subtotal(2 * index + 1);
            let right = self.subtotal(2 * index + 2);
            match step_from(self.subtotal(index), left, right, rest).ok_or(Refusal::Damaged)? {
                Step::Left => index = 2 * index + 1,
                Step::Right(after) => {
                    rest = after;
                    index = 2 * index + 2;
                }
                Step::Here => return Ok(index),
            }
        }
    }
}
