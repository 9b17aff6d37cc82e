// The exports of numbers and floats from words.
ghost use Rattle.std.specs.Prelude.{◌≡◌};
ghost use Rattle.words.specs.Floats as floats;
ghost use Rattle.slot_draw.specs.Words as below;

#[unsafe(no_mangle)]
pub extern "C" fn slot_draw_number_below(pool: &[u64], total: u64, answer: &mut [u64; 3])
    ensures { below.NumberBelow pool.now total answer.new }
{
    slot_draw::pool::slot_draw_number_below(pool, total, answer);
}

#[unsafe(no_mangle)]
pub extern "C" fn slot_draw_unit(word: u64) -> f64
    ensures { result ≡ floats.unit word }
{
    slot_draw::pool::slot_draw_unit(word)
}

#[unsafe(no_mangle)]
pub extern "C" fn slot_draw_symmetric_u(word: u64) -> f64
    ensures { result ≡ floats.symmetric_u word }
{
    slot_draw::pool::slot_draw_symmetric_u(word)
}

#[unsafe(no_mangle)]
pub extern "C" fn slot_draw_one_sided_u(word: u64) -> f64
    ensures { result ≡ floats.one_sided_u word }
{
    slot_draw::pool::slot_draw_one_sided_u(word)
}
