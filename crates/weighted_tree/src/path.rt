// The way from a cell up to cell 0, and what is changed along it.
ghost use Rattle.std.specs.Prelude.{◌≡◌, ◌<◌, ◌≤◌, length};
ghost use Rattle.std.specs.Iterator.{YieldsFirst, item_count};
ghost use Rattle.weighted_tree.specs.Path.{parents, path_of, change_all, Each, CanChange};

// The parents of a cell, from the nearest one up to cell 0.
#[derive(Clone, Copy, Debug, PartialEq, Eq)]
pub(crate) struct Parents(pub(crate) usize);

impl Iterator for Parents {
    type Item = usize;

    ghost next_gives = { YieldsFirst (λ p. parents p.0) };

    ghost remaining = { item_count (λ p. parents p.0) };

    fn next(&mut self) -> Option<usize> {
        self.0 = self.0.checked_sub(1)? / 2;
        Some(self.0)
    }
}

// Adds a rise to each parent of a cell, up to cell 0, and takes a fall from it.
#[tactic(auto, using(crate::proofs::Climb::change_room, crate::proofs::Climb::change_can, crate::proofs::Climb::change_end, crate::proofs::Climb::change_last))]
pub(crate) fn change_parents(store: &mut [u64], index: usize, rise: u64, fall: u64)
    requires { (index ≤ length store.old) × Each (CanChange rise fall) store.old (parents index) }
    ensures { store.new ≡ change_all store.old rise fall (parents index) }
{
    for at in Parents(index) {
        store[at] = store[at] + rise - fall;
    }
}

// The same for the cell and its parents.
pub(crate) fn change_path(store: &mut [u64], index: usize, rise: u64, fall: u64)
    requires { (index < length store.old) × Each (CanChange rise fall) store.old (path_of index) }
    ensures { store.new ≡ change_all store.old rise fall (path_of index) }
{
    store[index] = store[index] + rise - fall;
    change_parents(store, index, rise, fall);
}
