// What is printed: a table of pages, the checks at the end, and how often each class of weight was drawn.
use crate::cache::{Cache, Limits, Tally};
use crate::check;
use crate::check::Seen;
use crate::share::{Class, Shares, WHOLE, part};
use crate::tree::Build;
use std::fmt::Display;
use std::io;
use std::io::Write;
use std::num::Saturating;

// How numbers are printed: at the right of columns, with text beside them, or with commas alone.
#[derive(Clone, Copy, Debug, PartialEq, Eq)]
pub enum Format {
    Table,
    Csv,
}

impl Format {
    // The numbers of a row.
    fn row(self, out: &mut impl Write, numbers: &[u64]) -> io::Result<()> {
        for (i, number) in numbers.iter().enumerate() {
            match self {
                Format::Table => write!(out, "{number:>10}")?,
                Format::Csv if i == 0 => write!(out, "{number}")?,
                Format::Csv => write!(out, ",{number}")?,
            }
        }
        writeln!(out)
    }
}

// A label, and at the right of a column what it is about.
fn line<T: Display>(out: &mut impl Write, label: &str, value: &T) -> io::Result<()> {
    writeln!(out, "{label:<49}{value:>10}")
}

pub(crate) fn head(out: &mut impl Write, format: Format, limits: Limits) -> io::Result<()> {
    if format == Format::Csv {
        return writeln!(out, "page,slots,held,weight,given,freed,draws,empty,words");
    }
    line(out, "heap, bytes", &limits.heap)?;
    line(out, "slots, at most", &limits.slots)?;
    if limits.build == Build::Old {
        writeln!(out, "the last slot is popped as the old build did")?;
    }
    out.write_all(
        b"
      page     slots      held    weight     given     freed     draws     empty     words
",
    )
}

// A page: what the cache has, and what was done.
pub(crate) fn row(
    out: &mut impl Write,
    format: Format,
    page: u64,
    cache: &Cache,
    done: Tally,
) -> io::Result<()> {
    let numbers = [
        page,
        cache.tree.count() as u64,
        cache.held.0,
        cache.tree.total(),
        done.given.0,
        done.freed.0,
        done.draws.0,
        done.empty.0,
        done.words.0,
    ];
    format.row(out, &numbers)
}

// What became of the bytes, and what the tree says.
fn numbers(out: &mut impl Write, cache: &Cache) -> io::Result<()> {
    let held = cache.held.0;
    let weight = cache.tree.total();
    let above = held.saturating_sub(cache.limits.heap_mark());
    let stray = weight.saturating_sub(held);
    let wrong = check::wrong_slots(cache);
    let numbers = [
        ("bytes given out", cache.tally.given.0),
        ("bytes freed", cache.tally.freed.0),
        ("bytes held", held),
        ("bytes held above three quarters of the heap", above),
        ("weight of all slots", weight),
        ("weight that belongs to no bitmap", stray),
        ("draws that freed nothing", cache.tally.empty.0),
        ("calls of the tree that were refused", cache.tally.refused.0),
        ("slots whose weight is not their bitmap's bytes", wrong),
    ];
    writeln!(out)?;
    for (label, number) in numbers {
        line(out, label, &number)?;
    }
    Ok(())
}

// Whether no byte is lost, no slot has lost its weight, and the tree says the same as the bitmaps.
fn verdicts(out: &mut impl Write, cache: &Cache) -> io::Result<()> {
    let is_kept = cache.tally.given == cache.tally.freed + cache.held;
    let is_right = check::wrong_slots(cache) == 0;
    let is_whole = cache.tree.total() == cache.held.0;
    let is_sound = cache.tree.is_sound();
    let verdicts = [
        ("every byte given out was freed or is held", is_kept),
        ("each slot's weight is its bitmap's bytes", is_right),
        ("the weight of all slots is the bytes held", is_whole),
        ("is_sound, the whole-store check, says yes", is_sound),
    ];
    for (label, is_so) in verdicts {
        line(out, label, &if is_so { "yes" } else { "NO" })?;
    }
    Ok(())
}

// When something went wrong.
fn seen(out: &mut impl Write, seen: Seen) -> io::Result<()> {
    let firsts = [
        ("  a slot's weight is not its bitmap's bytes", seen.slot),
        (
            "  the weight of all slots is not the bytes held",
            seen.total,
        ),
        ("  is_sound, the whole-store check, says no", seen.unsound),
        ("  a draw fell where there is nothing to free", seen.empty),
        ("  there is no room for all glyphs of a page", seen.unshown),
    ];
    writeln!(out, "\nfirst page at which")?;
    for (label, first) in firsts {
        match first {
            Some(page) => line(out, label, &page)?,
            None => line(out, label, &"never")?,
        }
    }
    line(out, "pages", &seen.pages)?;
    line(out, "pages that could not be shown", &seen.pages_unshown)?;
    if seen.is_out_of_words {
        writeln!(out, "the file has no words for a page more")?;
    }
    Ok(())
}

// The same with commas, and 0 for never.
fn seen_csv(out: &mut impl Write, seen: Seen) -> io::Result<()> {
    let numbers = [
        seen.total.unwrap_or(0),
        seen.slot.unwrap_or(0),
        seen.empty.unwrap_or(0),
        seen.unsound.unwrap_or(0),
        seen.unshown.unwrap_or(0),
        seen.pages_unshown.0,
    ];
    writeln!(out, "\ntotal,slot,empty,unsound,unshown,pages_unshown")?;
    Format::Csv.row(out, &numbers)
}

// Why is_sound says yes to the old fault.
fn remark(out: &mut impl Write, build: Build) -> io::Result<()> {
    if build != Build::Old {
        return Ok(());
    }
    out.write_all(
        b"
The weight that the old pop leaves in the grandparents makes a cell larger than its children together, never smaller.
So is_sound, which has no more than the store, can't see it. The comparison with the bitmaps' bytes does.
",
    )
}

// Parts of 1,048,576 in percent, with two digits behind the point.
fn percent(out: &mut impl Write, part: u64) -> io::Result<()> {
    if WHOLE < part {
        return Ok(());
    }
    let hundredths = (part * 10000 + WHOLE / 2) / WHOLE;
    write!(out, "{:>10}.{:02}", hundredths / 100, hundredths % 100)
}

// A class of weight.
fn class_row(out: &mut impl Write, class: Class, draws: u64) -> io::Result<()> {
    let promised = (class.promised + Saturating(WHOLE / 2)).0 / WHOLE;
    write!(out, "{:>10}{:>10}{promised:>10}", class.least, class.drawn)?;
    percent(out, part(class.drawn.0, draws))?;
    percent(out, class.promised.0.checked_div(draws).unwrap_or(0))?;
    writeln!(out)
}

// A line for each class of weight.
fn shares(out: &mut impl Write, shares: &Shares, draws: u64) -> io::Result<()> {
    out.write_all(
        b"
slots by the bytes of their bitmap, 0 for the glyphs in flash
bytes from     drawn  promised      drawn %   promised %
",
    )?;
    for class in shares.classes {
        class_row(out, class, draws)?;
    }
    Ok(())
}

// The same with commas. What is promised stands in parts of 1,048,576 of a draw.
fn shares_csv(out: &mut impl Write, shares: &Shares) -> io::Result<()> {
    writeln!(out, "\nleast,drawn,promised")?;
    for class in shares.classes {
        Format::Csv.row(out, &[class.least, class.drawn.0, class.promised.0])?;
    }
    Ok(())
}

// What is printed at the end.
pub(crate) fn end(
    out: &mut impl Write,
    format: Format,
    cache: &Cache,
    ended: Seen,
) -> io::Result<()> {
    match format {
        Format::Csv => {
            shares_csv(out, &cache.shares)?;
            seen_csv(out, ended)
        }
        Format::Table => {
            numbers(out, cache)?;
            verdicts(out, cache)?;
            seen(out, ended)?;
            shares(out, &cache.shares, cache.tally.draws.0)?;
            remark(out, cache.limits.build)
        }
    }
}
