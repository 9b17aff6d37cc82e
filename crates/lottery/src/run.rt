// The simulation: page after page.
use crate::cache::{Cache, Limits};
use crate::check::Seen;
use crate::report;
use crate::report::Format;
use crate::source::{Generator, Source};
use std::io;
use std::io::Write;

// How many pages there are, and how they are told.
#[derive(Clone, Copy, Debug, PartialEq, Eq)]
pub struct Plan {
    pub pages: u64,
    pub format: Format,
}

impl Plan {
    // Whether a row is printed for a page: with commas for each, and else for 24 of them at most.
    fn has_row(self, page: u64) -> bool {
        match self.format {
            Format::Csv => true,
            Format::Table => page.is_multiple_of(self.pages.div_ceil(24)),
        }
    }
}

// A run between two pages.
#[derive(Clone, Copy, Debug)]
pub struct Run<'a> {
    pub cache: Cache,
    pub seen: Seen,
    source: Source<'a>,
    chooser: Generator,
}

impl<'a> Run<'a> {
    // Begins with an empty heap.
    pub(crate) fn new(limits: Limits, source: Source<'a>) -> Run<'a> {
        Run {
            cache: Cache::new(limits),
            seen: Seen::default(),
            source,
            chooser: Generator::new(521288629),
        }
    }

    // A page: loads its glyphs, then makes room by lottery with the words of its pool. Then its row, and its checks.
    fn page(
        &mut self,
        out: &mut impl Write,
        plan: Plan,
        page: u64,
        pool: &[u64],
    ) -> io::Result<()> {
        let before = self.cache.tally;
        let is_shown = self.cache.load_page(&mut self.chooser);
        self.cache.sweep(pool);
        let done = self.cache.tally.since(before);
        self.source.pass(done.words.0);
        self.seen.page(page, is_shown);
        if plan.has_row(page) {
            report::row(out, plan.format, page, &self.cache, done)?;
        }
        self.seen.checked(&self.cache);
        Ok(())
    }

    // The pages of a run, as long as there are words for them.
    pub(crate) fn pages(&mut self, out: &mut impl Write, plan: Plan) -> io::Result<()> {
        for page in 1..=plan.pages {
            let Some(pool) = self.source.lend() else {
                self.seen.run_out();
                return Ok(());
            };
            self.page(out, plan, page, &pool)?;
        }
        Ok(())
    }
}
