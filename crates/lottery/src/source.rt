// Words: from a generator of this program alone, or from a file, eight bytes a word, the highest byte first.
use std::fs::File;
use std::os::unix::fs::FileExt;

// The words that a page's draws are lent.
pub const PAGE_WORDS: usize = 64;

const PAGE_BYTES: usize = 8 * PAGE_WORDS;

// A generator: a shift register, and a counter that is added to what it gives.
#[derive(Clone, Copy, Debug, PartialEq, Eq)]
pub struct Generator {
    register: u64,
    counter: u64,
}

// One turn of the register. It is never 0 unless it was.
pub(crate) fn shifted(register: u64) -> u64 {
    let a = register ^ (register << 13);
    let b = a ^ (a >> 7);
    b ^ (b << 17)
}

impl Generator {
    pub(crate) fn new(seed: u64) -> Generator {
        Generator {
            register: shifted(shifted(seed)),
            counter: seed,
        }
    }

    pub(crate) fn next_word(&mut self) -> u64 {
        self.register = shifted(self.register);
        self.counter = self.counter.wrapping_add(11400714819323198485);
        self.register.wrapping_add(self.counter)
    }
}

// Where the words come from: the generator, or a file, from the place of a word on.
#[derive(Clone, Copy, Debug)]
pub enum Source<'a> {
    Generated(Generator),
    Read { file: &'a File, place: u64 },
}

// A page's words from the generator.
fn generated(generator: &mut Generator) -> [u64; PAGE_WORDS] {
    let mut pool = [0; PAGE_WORDS];
    pool.fill_with(|| generator.next_word());
    pool
}

// A page's words from a place in a file, where there are enough.
fn read(file: &File, place: u64) -> Option<[u64; PAGE_WORDS]> {
    let mut bytes = [0; PAGE_BYTES];
    let offset = place.checked_mul(8)?;
    if file.read_at(&mut bytes, offset).ok()? < PAGE_BYTES {
        return None;
    }
    let mut pool = [0; PAGE_WORDS];
    big_endian::numbers(&mut pool, &bytes, 8);
    Some(pool)
}

impl<'a> Source<'a> {
    pub(crate) fn from_generator() -> Source<'a> {
        Source::Generated(Generator::new(2463534242))
    }

    pub(crate) fn from_file(file: &'a File) -> Source<'a> {
        Source::Read { file, place: 0 }
    }

    // Lends a page its words. A file may have fewer left.
    pub(crate) fn lend(&mut self) -> Option<[u64; PAGE_WORDS]> {
        match self {
            Source::Generated(generator) => Some(generated(generator)),
            Source::Read { file, place } => read(file, *place),
        }
    }

    // Passes so many of the words that were lent: a file lends the others again, the generator lends new ones.
    pub(crate) fn pass(&mut self, words: u64) {
        if let Source::Read { place, .. } = self {
            *place = place.saturating_add(words);
        }
    }
}
