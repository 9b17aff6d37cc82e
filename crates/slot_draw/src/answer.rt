// The cells of an answer.
ghost use Rattle.slot_draw.specs.Cells.{Told};

use refusal::Numbers;

// Writes the three numbers of an answer.
pub(crate) fn tell<A: Into<Numbers>>(cells: &mut [u64; 3], answer: A)
    ensures { Told (A.converts answer) cells.new }
{
    let told: Numbers = answer.into();
    *cells = [told.number, told.first, told.second];
}
