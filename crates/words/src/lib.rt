// Numbers and floats from the words of a lent pool.
#![tactic(auto)]

mod floats;

ghost use Rattle.std.specs.Prelude.{◌≡◌, ◌-◌, ◌%◌, ◌^◌, ◌<◌, nat_lt, position};
ghost use Rattle.words.specs.Below as below;

pub use floats::{bits_of, float_of, one_sided_u, symmetric_u, unit};
use refusal::Refusal;

// 2^64 modulo the total, in u64: the total taken from zero wraps to 2^64 - total.
fn spill(total: u64) -> u64
    requires { 0 < total }
    ensures { result ≡ 2 ^ 64 % total }
{
    total.wrapping_neg() % total
}

// Whether a word lies below 2^64 less what spills over. Where nothing does, that bound is no u64, and every word does.
fn accepted(word: u64, spilled: u64) -> bool
    ensures { result ≡ nat_lt word (2 ^ 64 - spilled) }
{
    spilled == 0 || word < spilled.wrapping_neg()
}

// How many words of the pool stand before its first accepted one, where it has one.
fn skipped(pool: &[u64], spilled: u64) -> Option<usize>
    ensures { result ≡ position (λ word. nat_lt word (2 ^ 64 - spilled)) pool.now }
{
    pool.iter().position(|word| accepted(*word, spilled))
}

// The number below the total that the pool's first accepted word gives, and the place of that word, counted from one. Below 0 there
// is none.
pub fn number_below(pool: &[u64], total: u64) -> Result<(u64, usize), Refusal>
    ensures { below.Promise pool.now total result }
{
    if total == 0 {
        return Err(Refusal::OutOfWords);
    }
    let before = skipped(pool, spill(total)).ok_or(Refusal::OutOfWords)?;
    Ok((pool[before] % total, before + 1))
}
