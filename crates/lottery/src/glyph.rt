// The sign's glyphs: which ones a page wants, and the bytes of their bitmaps.
ghost use Rattle.std.specs.Prelude.{◌<◌, ◌≤◌};

use crate::source::{Generator, shifted};

// How many glyphs there are.
pub const GLYPHS: usize = 4096;

// The first of them are the sign's own. Their bitmaps lie in flash and hold no byte of the heap, so their weight is 0.
pub const IN_FLASH: usize = 512;

// How many glyphs a page wants.
pub const PAGE_GLYPHS: usize = 24;

// A glyph, by its number.
#[derive(Clone, Copy, Debug, PartialEq, Eq)]
pub struct Glyph {
    pub number: usize,
    ghost within: { number < 4096 },
}

// The smallest bitmap of a class. Of sixteen numbers six are of the first class, and one each of the last two.
fn least_by(number: u64) -> u64
    ensures some { 0 < result }
    ensures small { result ≤ 32768 }
{
    match number {
        0..=5 => 2048,
        6..=10 => 4096,
        11..=13 => 8192,
        14 => 16384,
        _ => 32768,
    }
}

impl Glyph {
    // The glyph that a page wants next: the smaller of two numbers, so that some glyphs are wanted more often.
    pub(crate) fn wanted(chooser: &mut Generator) -> Glyph {
        let word = chooser.next_word() as usize;
        Glyph {
            number: ((word >> 20) % GLYPHS).min((word >> 40) % GLYPHS),
        }
    }

    // A number that depends on the glyph alone.
    fn mixed(self) -> u64 {
        let number = self.number as u64;
        shifted(shifted(shifted(number.wrapping_add(88172645463325252))))
    }

    // The bytes of the heap that its bitmap takes.
    pub(crate) fn size(self) -> u64 {
        if self.number < IN_FLASH {
            return 0;
        }
        let mixed = self.mixed();
        let least = least_by(mixed % 16);
        least + mixed / 65536 % least
    }
}
