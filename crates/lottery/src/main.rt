// The glyph cache of a sign over page loads: glyphs come and go, the heap is bounded, and eviction is by lottery.
//
// A slot's weight is the bytes of its bitmap. A page loads the glyphs that it wants and the cache lacks; then, while
// more than three quarters of the heap are in use, slots are drawn from the tree with the page's 64 words, their bitmaps
// are freed, and the last slot's glyph moves into each. The first slots are those of the sign's own glyphs, whose
// bitmaps lie in flash: they hold no byte of the heap, so their weight is 0, and no word draws them.
//
// With --fault the last slot is popped as an old build did. The weight that this leaves behind ends up in slots a quarter
// of the way into the tree, among those of the glyphs in flash. Draws that fall there free nothing, and since such a slot
// is never given another weight, what is left there stays.
#![tactic(auto)]

mod arguments;
mod book;
mod cache;
mod check;
mod fault;
mod glyph;
mod report;
mod run;
mod share;
mod source;
mod tree;

use arguments::{Request, Settings};
use run::Run;
use source::Source;
use std::alloc::Global;
use std::fs::File;
use std::io;
use std::io::{BufWriter, ErrorKind, Write};
use std::rt::{Env, Files};

// The run, from an empty heap to the report.
fn simulate(out: &mut impl Write, settings: Settings, source: Source<'_>) -> io::Result<()> {
    let plan = settings.plan;
    report::head(out, plan.format, settings.limits)?;
    let mut run = Run::new(settings.limits, source);
    run.pages(out, plan)?;
    report::end(out, plan.format, &run.cache, run.seen)
}

// Opens the file of a name. std opens none whose name is not UTF-8.
fn open(rt: &impl Files<File = File>, name: &[u8]) -> io::Result<File> {
    match std::str::from_utf8(name) {
        Ok(path) => File::open(rt, path),
        Err(_) => Err(io::Error::from(ErrorKind::InvalidFilename)),
    }
}

// An error's words without the system's number for it.
fn reason(text: &str) -> &str {
    text.split_once(" (os error ")
        .map_or(text, |(words, _)| words)
}

// Says of a file that it can't be opened, and why.
fn fail(alloc: Global, errors: &mut impl Write, name: &[u8], error: &io::Error) -> io::Result<()> {
    let text = format!(in alloc; "{error}")?;
    errors.write_all(name)?;
    writeln!(errors, ": {}", reason(text.as_str()))
}

// With the words of a file that is named among the arguments.
fn simulate_with_file(
    rt: &(impl Env + Files<File = File> + AllocGlobal),
    out: &mut impl Write,
    errors: &mut impl Write,
    settings: Settings,
    place: usize,
) -> io::Result<()> {
    let mut buffer = [0; arguments::LONGEST];
    let name = arguments::argument(rt, place, &mut buffer);
    match open(rt, name) {
        Ok(file) => simulate(out, settings, Source::from_file(&file)),
        Err(error) => fail(rt.alloc(), errors, name, &error),
    }
}

// A line that can't be written ends the program with the error.
fn main(rt: HostRuntime) -> io::Result<()> {
    let request = match arguments::read(&rt) {
        Ok(request) => request,
        Err(bad) => return arguments::complain(&mut rt.stderr(), bad),
    };
    let mut out = BufWriter::new(rt.alloc(), io::writer(&rt))?;
    match request {
        Request::Help => arguments::usage(&mut out)?,
        Request::Simulate(settings) => match settings.words_place {
            Some(place) => {
                simulate_with_file(&rt, &mut out, &mut rt.stderr(), settings, place)?;
            }
            None => simulate(&mut out, settings, Source::from_generator())?,
        },
    }
    out.flush()
}
