// How often each class of weight is drawn, beside what its weight promises.
ghost use Rattle.std.specs.Prelude.{◌<◌};

use std::num::Saturating;

// How many classes there are.
const CLASSES: usize = 6;

// The smallest bitmap of each: 0 bytes, and 2 KB, 4 KB, 8 KB, 16 KB and 32 KB up to twice that.
const LEAST: [u64; CLASSES] = [0, 2048, 4096, 8192, 16384, 32768];

// What a draw counts for.
pub const WHOLE: u64 = 1048576;

// The class of a bitmap of so many bytes.
fn class_of(size: u64) -> usize
    ensures { result < 6 }
{
    LEAST[1..].partition_point(|least| *least <= size)
}

// A part of a whole, in parts of 1,048,576.
pub(crate) fn part(some: u64, all: u64) -> u64 {
    let parts = some.checked_mul(WHOLE).unwrap_or(0);
    parts.checked_div(all).unwrap_or(0)
}

// A class: its smallest bitmap, the bytes held now, how often it was drawn, and the sum over all draws of the class's
// share of the bytes then held, in parts of 1,048,576.
#[derive(Clone, Copy, Debug, Default, PartialEq, Eq)]
pub struct Class {
    pub least: u64,
    held: Saturating<u64>,
    pub drawn: Saturating<u64>,
    pub promised: Saturating<u64>,
}

#[derive(Clone, Copy, Debug, PartialEq, Eq)]
pub struct Shares {
    pub classes: [Class; CLASSES],
}

impl Class {
    // A class whose smallest bitmap has so many bytes. Nothing of it is held or was drawn.
    fn new(least: u64) -> Class {
        Class {
            least,
            ..Class::default()
        }
    }
}

impl Default for Shares {
    fn default() -> Shares {
        Shares {
            classes: LEAST.map(Class::new),
        }
    }
}

impl Shares {
    pub(crate) fn give(&mut self, size: u64) {
        self.classes[class_of(size)].held += size;
    }

    pub(crate) fn free(&mut self, size: u64) {
        self.classes[class_of(size)].held -= size;
    }

    // Counts a draw of a slot of this size while so many bytes are held.
    pub(crate) fn count(&mut self, size: u64, held: u64) {
        self.classes[class_of(size)].drawn += 1;
        for class in self.classes.iter_mut() {
            class.promised += part(class.held.0, held);
        }
    }
}
