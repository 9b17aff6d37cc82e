// Numbers and floats from words.
ghost use Rattle.std.specs.Prelude.{◌≡◌};
ghost use Rattle.words.specs.Floats as floats;
ghost use Rattle.slot_draw.specs.Words as below;

use crate::answer::tell;

pub fn slot_draw_number_below(pool: &[u64], total: u64, answer: &mut [u64; 3])
    ensures { below.NumberBelow pool.now total answer.new }
{
    tell(answer, words::number_below(pool, total));
}

pub fn slot_draw_unit(word: u64) -> f64
    ensures { result ≡ floats.unit word }
{
    words::unit(word)
}

pub fn slot_draw_symmetric_u(word: u64) -> f64
    ensures { result ≡ floats.symmetric_u word }
{
    words::symmetric_u(word)
}

pub fn slot_draw_one_sided_u(word: u64) -> f64
    ensures { result ≡ floats.one_sided_u word }
{
    words::one_sided_u(word)
}
