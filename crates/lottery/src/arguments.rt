// What the program is asked for.
ghost use Rattle.std.specs.Prelude.{◌≤◌, length};

use crate::cache::Limits;
use crate::report::Format;
use crate::run::Plan;
use crate::tree::{Build, SLOTS};
use std::env::FillError;
use std::error::Error;
use std::io::Write;
use std::ops::RangeInclusive;
use std::rt::Env;
use std::{fmt, io};

const MOST_SLOTS: u64 = SLOTS as u64;

// A run, and the place among the arguments of the name of the file of its words, where it has one.
#[derive(Clone, Copy, Debug, PartialEq, Eq)]
pub struct Settings {
    pub plan: Plan,
    pub limits: Limits,
    pub words_place: Option<usize>,
}

impl Default for Settings {
    fn default() -> Settings {
        Settings {
            plan: Plan {
                pages: 600,
                format: Format::Table,
            },
            limits: Limits {
                heap: 8388608,
                slots: MOST_SLOTS,
                build: Build::Sound,
            },
            words_place: None,
        }
    }
}

#[derive(Clone, Copy, Debug, PartialEq, Eq)]
pub enum Request {
    Help,
    Simulate(Settings),
}

// An argument that is unknown, lacks its value or is out of its range; or more arguments than are looked at.
#[derive(Clone, Copy, Debug, PartialEq, Eq)]
pub struct BadArgument;

impl fmt::Display for BadArgument {
    fn fmt<W: fmt::Write>(&self, f: &mut fmt::Formatter<W>) -> fmt::Result {
        f.write_str("an argument is unknown, lacks its value or is out of its range")
    }
}

impl Error for BadArgument {}

// The bytes of the longest argument that is read.
pub const LONGEST: usize = 4096;

// An argument, which is read into the start of the buffer; nothing where it is missing or too long.
pub(crate) fn argument<'a>(rt: &impl Env, place: usize, buffer: &'a mut [u8]) -> &'a [u8]
    ensures { length result.now ≤ length buffer.old }
{
    match rt.arg(place, buffer) {
        Ok(length) => &buffer[..length],
        Err(_) => &[],
    }
}

const MOST_DIGITS: usize = 12;

// A number of decimal digits, at most twelve of them.
fn number(text: &[u8]) -> Option<u64> {
    if MOST_DIGITS < text.len() || !text.iter().all(|byte| byte.is_ascii_digit()) {
        return None;
    }
    std::str::from_utf8(text).ok()?.parse().ok()
}

// The number at a place, which has to be in a range.
fn number_in(
    rt: &impl Env,
    place: Option<usize>,
    range: RangeInclusive<u64>,
) -> Result<u64, BadArgument> {
    let mut buffer = [0; LONGEST];
    match number(argument(rt, place.ok_or(BadArgument)?, &mut buffer)) {
        Some(value) if range.contains(&value) => Ok(value),
        _ => Err(BadArgument),
    }
}

// The most arguments that are looked at: each option twice is fewer.
const MOST_ARGUMENTS: usize = 32;

// Whether there is no argument at a place.
fn is_past_end(rt: &impl Env, place: usize) -> bool {
    let mut start = [0; 1];
    matches!(rt.arg(place, &mut start), Err(FillError::NotPresent))
}

// How many arguments there are, the program's name among them.
fn count(rt: &impl Env) -> Result<usize, BadArgument> {
    (0..=MOST_ARGUMENTS)
        .find(|place| is_past_end(rt, *place))
        .ok_or(BadArgument)
}

pub(crate) fn read(rt: &impl Env) -> Result<Request, BadArgument> {
    let mut settings = Settings::default();
    let mut is_help = false;
    let mut places = 1..count(rt)?;
    while let Some(place) = places.next() {
        let mut buffer = [0; LONGEST];
        match argument(rt, place, &mut buffer) {
            b"--pages" => settings.plan.pages = number_in(rt, places.next(), 1..=100000)?,
            b"--heap" => settings.limits.heap = number_in(rt, places.next(), 65536..=1073741824)?,
            b"--slots" => settings.limits.slots = number_in(rt, places.next(), 513..=MOST_SLOTS)?,
            b"--words" => settings.words_place = Some(places.next().ok_or(BadArgument)?),
            b"--fault" => settings.limits.build = Build::Old,
            b"--csv" => settings.plan.format = Format::Csv,
            b"--help" => is_help = true,
            _ => return Err(BadArgument),
        }
    }
    if is_help {
        Ok(Request::Help)
    } else {
        Ok(Request::Simulate(settings))
    }
}

pub(crate) fn usage(out: &mut impl Write) -> io::Result<()> {
    out.write_all(
        b"usage: lottery [--pages N] [--heap BYTES] [--slots N] [--words FILE] [--fault] [--csv]

Loads pages of glyphs into a bounded heap, and evicts glyphs by lottery.

  --pages N     how many pages, 1 to 100000 (600)
  --heap BYTES  the heap for bitmaps, 65536 to 1073741824 (8388608)
  --slots N     the most slots, 513 to 4096 (4096); the first 512 are for glyphs in flash
  --words FILE  the words for the draws, eight bytes each, the highest first; a page is lent 64
  --fault       pop as the old build did, which left the weight in the grandparents
  --csv         every page, with commas
  --help        this text
",
    )
}

// Says what is wrong with the arguments, and what they may be.
pub(crate) fn complain(errors: &mut impl Write, bad: BadArgument) -> io::Result<()> {
    writeln!(errors, "lottery: {bad}")?;
    usage(errors)
}
