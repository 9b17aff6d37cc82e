// A cell on plain numbers: whether it covers its children, and where a walk goes from it.
ghost use Rattle.std.specs.Prelude.{◌≡◌};
ghost use Rattle.weighted_tree.specs.Step as step;

// Where a walk goes: to a child, with what is left of the target, or nowhere further.
#[derive(Clone, Copy, Debug, PartialEq, Eq)]
pub(crate) enum Step {
    Left,
    Right(u64),
    Here,
}

// Whether a subtotal is at least what its children hold together, with no sum that could wrap.
fn covers(subtotal: u64, left: u64, right: u64) -> bool
    ensures { result ≡ step.covers subtotal left right }
{
    left <= subtotal && right <= subtotal - left
}

// The step from a cell, by the subtotals of the cell and of its children. From an unsound cell there is none.
pub(crate) fn step_from(subtotal: u64, left: u64, right: u64, target: u64) -> Option<Step>
    ensures { result ≡ step.step_from subtotal left right target }
{
    if !covers(subtotal, left, right) {
        return None;
    }
    if target < left {
        return Some(Step::Left);
    }
    let rest = target - left;
    if rest < right {
        return Some(Step::Right(rest));
    }
    Some(Step::Here)
}
