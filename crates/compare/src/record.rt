// A record in memory: the call, the origin of its answer, and eight lists, each behind its length.
use crate::call::Call;

#[derive(Clone, Copy, Debug, PartialEq, Eq)]
pub struct Record<'a> {
    pub call: Call,
    // The numbers handed in.
    pub numbers: &'a [u64],
    pub lent: [&'a [u64]; 4],
    pub answer: &'a [u64],
    // What is to be left in the lent lists that the call changes.
    pub left: [&'a [u64]; 2],
}

// The list that the words begin with, behind its length, is taken off them.
fn take_list<'a>(words: &mut &'a [u64]) -> Option<&'a [u64]> {
    let (size, rest) = words.split_first()?;
    let (list, rest) = rest.split_at_checked(usize::try_from(*size).ok()?)?;
    *words = rest;
    Some(list)
}

impl<'a> Record<'a> {
    // None where the call is unknown, a list is not all there, or more follows the last.
    pub(crate) fn parse(words: &'a [u64]) -> Option<Record<'a>> {
        let [call, _origin, lists @ ..] = words else {
            return None;
        };
        let call = Call::try_from(*call).ok()?;
        let mut rest = lists;
        let numbers = take_list(&mut rest)?;
        let lent = [
            take_list(&mut rest)?,
            take_list(&mut rest)?,
            take_list(&mut rest)?,
            take_list(&mut rest)?,
        ];
        let answer = take_list(&mut rest)?;
        let left = [take_list(&mut rest)?, take_list(&mut rest)?];
        let record = Record {
            call,
            numbers,
            lent,
            answer,
            left,
        };
        rest.is_empty().then_some(record)
    }

    // A number handed in, and 0 where the record has none.
    pub(crate) fn number(&self, which: usize) -> u64 {
        self.numbers.get(which).copied().unwrap_or(0)
    }

    // The lent list that the call may change, and an empty one where it changes none.
    pub(crate) fn changed(&self) -> &'a [u64] {
        let [first, second, third, fourth] = self.lent;
        match self.call {
            Call::New | Call::Pop | Call::Push | Call::Update => first,
            Call::AliasNew => second,
            Call::AliasWeights => third,
            Call::AliasCheck => fourth,
            _ => &[],
        }
    }

    // The lent list that has the links of a table, and an empty one where a call has none.
    pub(crate) fn linked(&self) -> &'a [u64] {
        let [_, second, third, _] = self.lent;
        match self.call {
            Call::AliasDraw | Call::AliasWeights => second,
            Call::AliasNew | Call::AliasCheck => third,
            _ => &[],
        }
    }
}
