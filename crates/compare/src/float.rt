// The calls of the float kernels. A float is its bits in a record, and every NaN is the one NaN.
use crate::record::Record;
use binomial::{Method, SetupNumbers};
use refusal::Numbers;
use ziggurat::RoundNumbers;

// The longest table that is copied.
const MOST_FLOATS: usize = 512;

pub(crate) fn setup(record: &Record) -> SetupNumbers {
    binomial::new(record.number(0), words::float_of(record.number(1))).into()
}

// The setup that a record hands in: a constant, or the numbers of BINV.
fn method(record: &Record) -> Method {
    Method::from(SetupNumbers {
        number: 0,
        kind: record.number(0),
        n: record.number(1),
        r: record.number(2),
        s: record.number(3),
        a: record.number(4),
        flip: record.number(5),
    })
}

pub(crate) fn draw(record: &Record) -> Numbers {
    binomial::draw(method(record), record.lent[0]).into()
}

// The floats whose bits are the numbers, where they are not too many.
fn floats<'a>(room: &'a mut [f64; MOST_FLOATS], numbers: &[u64]) -> Option<&'a [f64]> {
    let copy = room.get_mut(..numbers.len())?;
    for (float, bits) in copy.iter_mut().zip(numbers) {
        *float = words::float_of(*bits);
    }
    Some(copy)
}

// None where a record's tables are too long.
pub(crate) fn round(record: &Record) -> Option<RoundNumbers> {
    let [edges, densities, pool, _] = record.lent;
    let mut x = [0.0; MOST_FLOATS];
    let mut f = [0.0; MOST_FLOATS];
    let edges = floats(&mut x, edges)?;
    let densities = floats(&mut f, densities)?;
    let symmetric = record.number(0) != 0;
    Some(ziggurat::round(edges, densities, symmetric, pool).into())
}
