// The tree of the slots: the cells that it lends to the calls of weighted_tree, and how many slots it has.
use crate::fault;
use refusal::Refusal;

// The most slots.
pub const SLOTS: usize = 4096;

// Which build's pop the tree has: today's, or the old one's, which leaves the weight in the grandparents.
#[derive(Clone, Copy, Debug, PartialEq, Eq)]
pub enum Build {
    Sound,
    Old,
}

#[derive(Clone, Copy, Debug)]
pub struct Tree {
    cells: [u64; SLOTS],
    count: usize,
}

impl Tree {
    pub(crate) fn new(weights: &[u64]) -> Tree {
        let mut cells = [0; SLOTS];
        let count = weighted_tree::new(&mut cells, weights).unwrap_or(0);
        Tree { cells, count }
    }

    // How many slots there are.
    pub(crate) fn count(&self) -> usize {
        self.count
    }

    // The weight of all slots together.
    pub(crate) fn total(&self) -> u64 {
        if self.count == 0 { 0 } else { self.cells[0] }
    }

    // The weight of a slot.
    pub(crate) fn weight(&self, slot: usize) -> Result<u64, Refusal> {
        weighted_tree::get(&self.cells, self.count, slot)
    }

    // The whole-store check, which has no more than the store: whether no cell is below its children's sum.
    pub(crate) fn is_sound(&self) -> bool {
        weighted_tree::is_sound(&self.cells, self.count) == Ok(true)
    }

    // Adds a slot.
    pub(crate) fn push(&mut self, weight: u64) -> Result<(), Refusal> {
        self.count = weighted_tree::push(&mut self.cells, self.count, weight)?;
        Ok(())
    }

    // The slot that the words of a pool draw, and how many of them it took.
    pub(crate) fn draw(&self, pool: &[u64]) -> Result<(usize, usize), Refusal> {
        let drawing = weighted_tree::draw(&self.cells, self.count, pool);
        Ok((drawing.outcome?, drawing.words))
    }

    // Takes the last slot off.
    fn pop(&mut self, build: Build) -> Result<(), Refusal> {
        self.count = match build {
            Build::Sound => weighted_tree::pop(&mut self.cells, self.count)?.1,
            Build::Old => fault::pop(&mut self.cells, self.count),
        };
        Ok(())
    }

    // Gives a slot the last slot's weight, and takes the last slot off.
    pub(crate) fn remove(&mut self, slot: usize, weight: u64, build: Build) -> Result<(), Refusal> {
        weighted_tree::update(&mut self.cells, self.count, slot, weight)?;
        self.pop(build)
    }
}
