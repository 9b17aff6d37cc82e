// Why a replay stops before the end of its stream.
use crate::call::Call;
use std::error::Error;
use std::io::ErrorKind;
use std::{fmt, io};

// An answer that was expected of a call, and the port's.
#[derive(Clone, Copy, Debug, PartialEq, Eq)]
pub struct Difference<'a> {
    pub call: Call,
    pub expected: &'a [u64],
    pub got: [u64; 8],
}

#[derive(Debug, Drop)]
pub enum Stop<'a> {
    Unread(io::Error),
    CutOff,
    TooLong,
    Malformed,
    Answer(Difference<'a>),
    // The answers agree, and the lent cells after the call differ.
    Cells(Difference<'a>),
}

impl<'a> From<io::Error> for Stop<'a> {
    fn from(error: io::Error) -> Self {
        match error.kind() {
            // The stream ends within a record.
            ErrorKind::UnexpectedEof => Stop::CutOff,
            _ => Stop::Unread(error),
        }
    }
}

// Numbers, each behind a space.
#[derive(Clone, Copy, Debug)]
struct Spaced<'a>(&'a [u64]);

impl fmt::Display for Spaced<'_> {
    fn fmt<W: fmt::Write>(&self, f: &mut fmt::Formatter<W>) -> fmt::Result {
        for number in self.0 {
            write!(f, " {number}")?;
        }
        Ok(())
    }
}

impl fmt::Display for Difference<'_> {
    fn fmt<W: fmt::Write>(&self, f: &mut fmt::Formatter<W>) -> fmt::Result {
        let call = self.call;
        let expected = Spaced(self.expected);
        let got = Spaced(&self.got);
        write!(
            f,
            "({call}) differs: expected{expected}, the port gave{got}"
        )
    }
}

impl fmt::Display for Stop<'_> {
    fn fmt<W: fmt::Write>(&self, f: &mut fmt::Formatter<W>) -> fmt::Result {
        match self {
            Stop::Unread(error) => write!(f, "can't be read: {error}"),
            Stop::CutOff => write!(f, "is cut off"),
            Stop::TooLong => write!(f, "is longer than this program can hold"),
            Stop::Malformed => write!(f, "is malformed"),
            Stop::Answer(difference) => write!(f, "{difference}"),
            Stop::Cells(difference) => {
                write!(
                    f,
                    "{difference}\nits answer agrees, and the lent cells it leaves do not"
                )
            }
        }
    }
}

impl Error for Stop<'_> {}
