// How many records of each call agree.
use crate::call::Call;
use std::fmt;
use std::num::Saturating;

#[derive(Clone, Copy, Debug, Default, PartialEq, Eq)]
pub struct Tally {
    agree: [Saturating<u64>; Call::ALL.len()],
    is_stopped: bool,
}

impl Tally {
    // One record more of a call.
    pub(crate) fn count(&mut self, call: Call) {
        self.agree[call as usize] += 1;
    }

    // The replay ends before its stream does.
    pub(crate) fn stop(&mut self) {
        self.is_stopped = true;
    }
}

impl fmt::Display for Tally {
    // A line for each call, and the verdict.
    fn fmt<W: fmt::Write>(&self, f: &mut fmt::Formatter<W>) -> fmt::Result {
        let mut all = Saturating(0);
        for (call, agree) in Call::ALL.iter().zip(&self.agree) {
            if *agree != Saturating(0) {
                writeln!(f, "{call}: {agree} agree")?;
                all += *agree;
            }
        }
        if self.is_stopped {
            write!(f, "{all} records agree; stopped before the end")
        } else {
            write!(f, "{all} records, all agree")
        }
    }
}
