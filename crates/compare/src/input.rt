// Records from standard input: how many bytes a number has, how many bytes follow, and the numbers, each with its highest
// byte first.
use crate::stop::Stop;
use std::io::BufRead;

const MOST_WORDS: usize = 32768;

const MOST_BYTES: usize = 8 * MOST_WORDS;

// A stream of records, with the one that was read last.
#[derive(Debug, Drop)]
pub struct Input<R> {
    stream: R,
    bytes: [u8; MOST_BYTES],
    words: [u64; MOST_WORDS],
}

impl<R: BufRead> Input<R> {
    pub(crate) fn new(stream: R) -> Self {
        Input {
            stream,
            bytes: [0; MOST_BYTES],
            words: [0; MOST_WORDS],
        }
    }

    // The words of the next record, or none at the end of the stream.
    pub(crate) fn next_record(&mut self) -> Result<Option<&[u64]>, Stop<'_>> {
        let Input {
            stream,
            bytes,
            words,
        } = self;
        if stream.fill_buf()?.is_empty() {
            return Ok(None);
        }
        let mut header = [0; 4];
        stream.read_exact(&mut header)?;
        let width = usize::from(header[0]);
        let size = big_endian::number(&header[1..]) as usize;
        if !(1..=8).contains(&width) || size % width != 0 {
            return Err(Stop::Malformed);
        }
        let words = words.get_mut(..size / width).ok_or(Stop::TooLong)?;
        let bytes = bytes.get_mut(..size).ok_or(Stop::TooLong)?;
        stream.read_exact(bytes)?;
        big_endian::numbers(words, bytes, width);
        Ok(Some(words))
    }
}
