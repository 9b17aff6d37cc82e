// What is checked after each page: the tree against the bitmaps that the cache holds.
use crate::cache::Cache;
use std::num::Saturating;

// The pages at which something was seen first, how many pages there were, and how many of them were not shown.
#[derive(Clone, Copy, Debug, Default, PartialEq, Eq)]
pub struct Seen {
    pub total: Option<u64>,
    pub slot: Option<u64>,
    pub empty: Option<u64>,
    pub unsound: Option<u64>,
    pub unshown: Option<u64>,
    pub pages_unshown: Saturating<u64>,
    pub pages: u64,
    pub is_out_of_words: bool,
}

// Whether a slot's weight is its bitmap's size.
fn is_right(cache: &Cache, slot: usize) -> bool {
    let size = cache.book.glyph_in(slot).size();
    cache.tree.weight(slot).is_ok_and(|weight| weight == size)
}

// How many slots have a weight that is not their bitmap's size.
pub(crate) fn wrong_slots(cache: &Cache) -> u64 {
    (0..cache.tree.count())
        .filter(|slot| !is_right(cache, *slot))
        .count() as u64
}

impl Seen {
    // Where there are no words for a page more.
    pub(crate) fn run_out(&mut self) {
        self.is_out_of_words = true;
    }

    // After a page whose glyphs all found room, or did not.
    pub(crate) fn page(&mut self, page: u64, is_shown: bool) {
        self.pages = page;
        if !is_shown {
            self.unshown = self.unshown.or(Some(page));
            self.pages_unshown += 1;
        }
    }

    // After the checks of a page.
    pub(crate) fn checked(&mut self, cache: &Cache) {
        let page = self.pages;
        let seen = |is_seen: bool| is_seen.then_some(page);
        self.total = self.total.or(seen(cache.tree.total() != cache.held.0));
        self.slot = self.slot.or(seen(0 < wrong_slots(cache)));
        self.empty = self.empty.or(seen(0 < cache.tally.empty.0));
        self.unsound = self.unsound.or(seen(!cache.tree.is_sound()));
    }
}
