// The fault of the old build, for its replay: nothing else calls this.
use std::mem;

// Removes the last slot, takes its weight from its first parent, and leaves it in the grandparents.
pub(crate) fn pop(cells: &mut [u64], count: usize) -> usize {
    let last = count.saturating_sub(1);
    let Some(cell) = cells.get_mut(last) else {
        return last;
    };
    let weight = mem::take(cell);
    if 0 < last
        && let Some(parent) = cells.get_mut((last - 1) / 2)
    {
        *parent = parent.saturating_sub(weight);
    }
    last
}
