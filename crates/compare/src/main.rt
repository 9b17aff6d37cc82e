// Replays recorded calls from standard input, and says how many answers and lent cells are the port's too.
//
// docs/VECTORS.md describes a record byte by byte. At the first record that differs, or is cut off or malformed, the
// program says its place, what was expected and what the port gave, and stops.
#![tactic(auto)]

mod answer;
mod call;
mod float;
mod input;
mod port;
mod record;
mod stop;
mod tally;

use call::Call;
use input::Input;
use port::Room;
use record::Record;
use std::io;
use std::io::{BufRead, BufReader, BufWriter, Write};
use stop::Stop;
use tally::Tally;

// The calls that a stream may have, and a little more than any program can read of them.
const MOST_RECORDS: u64 = 1 << 62;

// How many bytes of the stream are read at a time.
const READ_AHEAD: usize = 65536;

// Replays the next record, and gives its call, or none at the end of the stream.
fn turn<'a>(input: &'a mut Input<impl BufRead>, room: &mut Room) -> Result<Option<Call>, Stop<'a>> {
    let Some(words) = input.next_record()? else {
        return Ok(None);
    };
    let record = Record::parse(words).ok_or(Stop::Malformed)?;
    port::compare(&record, room)?;
    Ok(Some(record.call))
}

fn replay(input: &mut Input<impl BufRead>, out: &mut impl Write) -> io::Result<Tally> {
    let mut room = Room::new();
    let mut tally = Tally::default();
    for place in 1..=MOST_RECORDS {
        match turn(input, &mut room) {
            Ok(Some(call)) => tally.count(call),
            Ok(None) => return Ok(tally),
            Err(Stop::Unread(error)) => return Err(error),
            Err(why) => {
                writeln!(out, "record {place} {why}")?;
                tally.stop();
                return Ok(tally);
            }
        }
    }
    Ok(tally)
}

// A stream that can't be read to its end, or a line that can't be written, ends the program with the error.
fn main(rt: HostRuntime) -> io::Result<()> {
    let alloc = rt.alloc();
    let mut input = Input::new(BufReader::with_capacity(alloc, READ_AHEAD, rt.reader())?);
    let mut out = BufWriter::new(alloc, io::writer(&rt))?;
    let tally = replay(&mut input, &mut out)?;
    writeln!(out, "{tally}")?;
    out.flush()
}
