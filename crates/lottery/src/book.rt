// What the cache keeps beside the tree: the glyph of each slot, and which glyphs have one.
use crate::glyph::{GLYPHS, Glyph, IN_FLASH};
use crate::tree::SLOTS;

#[derive(Clone, Copy, Debug)]
pub struct Book {
    glyphs: [Glyph; SLOTS],
    is_held: [bool; GLYPHS],
}

impl Book {
    // Begins with the glyphs in flash, each in the slot of its own number.
    pub(crate) fn new() -> Book {
        let mut book = Book {
            glyphs: [Glyph { number: 0 }; SLOTS],
            is_held: [false; GLYPHS],
        };
        for number in 0..IN_FLASH {
            book.enter(number, Glyph { number });
        }
        book
    }

    // The tree has SLOTS slots at most, so the remainder of a slot by it is the slot itself.
    pub(crate) fn glyph_in(&self, slot: usize) -> Glyph {
        self.glyphs[slot % SLOTS]
    }

    pub(crate) fn has(&self, glyph: Glyph) -> bool {
        self.is_held[glyph.number]
    }

    // Puts a glyph into a slot.
    pub(crate) fn enter(&mut self, slot: usize, glyph: Glyph) {
        self.glyphs[slot % SLOTS] = glyph;
        self.is_held[glyph.number] = true;
    }

    // Forgets where a glyph was.
    pub(crate) fn forget(&mut self, glyph: Glyph) {
        self.is_held[glyph.number] = false;
    }
}
