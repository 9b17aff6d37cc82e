// Running the call of a record, and holding its answer and the lent cells after it to what the record says.
use crate::answer::Answer;
use crate::call::Call;
use crate::float;
use crate::record::Record;
use crate::stop::{Difference, Stop};
use refusal::Numbers;

const MOST_CELLS: usize = 8192;

// Where the cells that a call may change are copied to, and the links of its table.
#[derive(Debug, Drop)]
pub struct Room {
    cells: [u64; MOST_CELLS],
    links: [u32; MOST_CELLS],
}

impl Room {
    pub(crate) fn new() -> Self {
        Room {
            cells: [0; MOST_CELLS],
            links: [0; MOST_CELLS],
        }
    }

    // Copies of the cells and of the links, where there is room and each link is a u32.
    fn copies(&mut self, cells: &[u64], links: &[u64]) -> Option<(&mut [u64], &mut [u32])> {
        let copied = self.cells.as_mut_slice().get_mut(..cells.len())?;
        let linked = self.links.as_mut_slice().get_mut(..links.len())?;
        copied.copy_from_slice(cells);
        for (link, number) in linked.iter_mut().zip(links) {
            *link = u32::try_from(*number).ok()?;
        }
        Some((copied, linked))
    }
}

// What the port answers, over copies of the cells that the call may change and of its links.
fn answer(record: &Record, cells: &mut [u64], links: &mut [u32]) -> Option<Answer> {
    let [first, second, third, _] = record.lent;
    // The first is a count of slots, a sum or a bound, the second an index, a weight or a target, the third a weight.
    let [a, b, c] = [0, 1, 2].map(|which| record.number(which));
    let (count, index) = (a as usize, b as usize);
    let told: Numbers = match record.call {
        Call::New => weighted_tree::new(cells, second).into(),
        Call::IsValid => weighted_tree::is_valid(first, count).into(),
        Call::Get => weighted_tree::get(first, count, index).into(),
        Call::Pop => weighted_tree::pop(cells, count).into(),
        Call::Push => weighted_tree::push(cells, count, b).into(),
        Call::Update => weighted_tree::update(cells, count, index, c).into(),
        Call::Walk => weighted_tree::walk(first, count, b).into(),
        Call::Draw => weighted_tree::draw(first, count, second).into(),
        Call::IsSound => weighted_tree::is_sound(first, count).into(),
        Call::NumberBelow => words::number_below(first, a).into(),
        Call::AliasNew => weighted_alias::new(first, cells, links).into(),
        Call::AliasDraw => weighted_alias::draw(first, links, a, third).into(),
        Call::AliasWeights => alias_checker::weights(first, links, a, cells).into(),
        Call::AliasCheck => alias_checker::check(first, second, links, cells).into(),
        Call::BinomialNew => return Some(float::setup(record).into()),
        Call::BinomialDraw => float::draw(record),
        Call::ZigguratRound => return float::round(record).map(Answer::from),
    };
    Some(told.into())
}

// Whether links are the numbers of a list.
fn same_links(links: &[u32], numbers: &[u64]) -> bool {
    let links = links.iter().map(|link| u64::from(*link));
    links.eq(numbers.iter().copied())
}

// Whether the lent cells after the call are those that the record says.
fn cells_agree(record: &Record, cells: &[u64], links: &[u32]) -> bool {
    let [left, left_links] = record.left;
    match record.call {
        // What these leave is not looked at: they change nothing.
        Call::BinomialNew | Call::BinomialDraw | Call::ZigguratRound => true,
        Call::AliasNew => cells == left && same_links(links, left_links),
        _ => cells == left,
    }
}

// Runs the call of a record over copies of what it may change.
pub(crate) fn compare<'a>(record: &Record<'a>, room: &mut Room) -> Result<(), Stop<'a>> {
    let (cells, links) = room
        .copies(record.changed(), record.linked())
        .ok_or(Stop::Malformed)?;
    let told = answer(record, cells, links).ok_or(Stop::Malformed)?;
    let expected = record.answer;
    let difference = Difference {
        call: record.call,
        expected,
        got: told.numbers,
    };
    if !told.agrees(expected) {
        return Err(Stop::Answer(difference));
    }
    if !cells_agree(record, cells, links) {
        return Err(Stop::Cells(difference));
    }
    Ok(())
}
