// The glyph cache: a slot has a glyph and, in the tree, the bytes of its bitmap as its weight.
use crate::book::Book;
use crate::glyph::{Glyph, IN_FLASH, PAGE_GLYPHS};
use crate::share::Shares;
use crate::source::Generator;
use crate::tree::{Build, Tree};
use refusal::Refusal;
use std::num::Saturating;

// What the cache may hold, and which build's pop it has.
#[derive(Clone, Copy, Debug, PartialEq, Eq)]
pub struct Limits {
    pub heap: u64,
    pub slots: u64,
    pub build: Build,
}

impl Limits {
    // Three quarters of the heap.
    pub(crate) fn heap_mark(self) -> u64 {
        self.heap - self.heap / 4
    }

    // The slots but for a quarter of those past the glyphs in flash.
    fn slots_mark(self) -> u64 {
        let spare = self.slots.saturating_sub(IN_FLASH as u64) / 4;
        self.slots.saturating_sub(spare)
    }
}

// What the cache did since it began.
#[derive(Clone, Copy, Debug, Default, PartialEq, Eq)]
pub struct Tally {
    pub given: Saturating<u64>,
    pub freed: Saturating<u64>,
    pub draws: Saturating<u64>,
    pub empty: Saturating<u64>,
    pub words: Saturating<u64>,
    pub refused: Saturating<u64>,
}

impl Tally {
    // What was done since an earlier time.
    pub(crate) fn since(self, before: Tally) -> Tally {
        Tally {
            given: self.given - before.given,
            freed: self.freed - before.freed,
            draws: self.draws - before.draws,
            empty: self.empty - before.empty,
            words: self.words - before.words,
            refused: self.refused - before.refused,
        }
    }
}

#[derive(Clone, Copy, Debug)]
pub struct Cache {
    pub limits: Limits,
    pub tree: Tree,
    pub book: Book,
    pub shares: Shares,
    // The bytes of the heap that are in use.
    pub held: Saturating<u64>,
    pub tally: Tally,
}

impl Cache {
    // Begins with the glyphs in flash in the first slots, at weight 0.
    pub(crate) fn new(limits: Limits) -> Cache {
        Cache {
            limits,
            tree: Tree::new(&[0; IN_FLASH]),
            book: Book::new(),
            shares: Shares::default(),
            held: Saturating(0),
            tally: Tally::default(),
        }
    }

    // Whether a bitmap more fits into the heap, and a slot more into the tree.
    fn has_room(&self, size: u64) -> bool {
        self.held + Saturating(size) <= Saturating(self.limits.heap)
            && (self.tree.count() as u64) < self.limits.slots
    }

    // Whether draws are to make room: more than three quarters of the heap, or of the slots past the glyphs in
    // flash, are in use.
    fn is_crowded(&self) -> bool {
        self.limits.heap_mark() < self.held.0 || self.limits.slots_mark() < self.tree.count() as u64
    }

    // Gives a glyph a slot and a bitmap.
    fn load(&mut self, wanted: Glyph) -> Result<(), Refusal> {
        let slot = self.tree.count();
        let size = wanted.size();
        self.tree.push(size)?;
        self.book.enter(slot, wanted);
        self.shares.give(size);
        self.held += size;
        self.tally.given += size;
        Ok(())
    }

    // Loads a glyph that the cache lacks, where there is room for it. Says whether the cache then has it.
    fn want(&mut self, wanted: Glyph) -> bool {
        let is_due = !self.book.has(wanted) && self.has_room(wanted.size());
        if is_due && self.load(wanted).is_err() {
            self.tally.refused += 1;
        }
        self.book.has(wanted)
    }

    // Loads what a page wants. Says whether all glyphs found room.
    pub(crate) fn load_page(&mut self, chooser: &mut Generator) -> bool {
        let mut is_shown = true;
        for _ in 0..PAGE_GLYPHS {
            is_shown &= self.want(Glyph::wanted(chooser));
        }
        is_shown
    }

    // Frees the bitmap of a slot, and moves the last slot's glyph into it.
    fn evict(&mut self, slot: usize) -> Result<(), Refusal> {
        let evicted = self.book.glyph_in(slot);
        let size = evicted.size();
        if size == 0 {
            self.tally.empty += 1;
            return Ok(());
        }
        let last = self.book.glyph_in(self.tree.count().saturating_sub(1));
        self.tree.remove(slot, last.size(), self.limits.build)?;
        self.book.enter(slot, last);
        self.book.forget(evicted);
        self.shares.free(size);
        self.held -= size;
        self.tally.freed += size;
        Ok(())
    }

    // One draw, whose slot is evicted. Says how many words it used.
    fn draw(&mut self, pool: &[u64]) -> Result<usize, Refusal> {
        let (slot, used) = self.tree.draw(pool)?;
        let drawn = self.book.glyph_in(slot);
        self.shares.count(drawn.size(), self.held.0);
        self.tally.draws += 1;
        self.tally.words += used as u64;
        if self.evict(slot).is_err() {
            self.tally.refused += 1;
        }
        Ok(used)
    }

    // Draws and evicts until the cache is no longer crowded, the words of the pool end or a draw is refused.
    pub(crate) fn sweep(&mut self, pool: &[u64]) {
        let mut rest = pool;
        while !rest.is_empty() && self.is_crowded() {
            let Ok(used) = self.draw(rest) else {
                self.tally.refused += 1;
                return;
            };
            // A draw uses a word at least, so the sweep ends.
            rest = rest.get(used.max(1)..).unwrap_or(&[]);
        }
    }
}
