// The sum of lent numbers, and none where it is no u64.
#![tactic(auto)]

ghost use Rattle.std.specs.Prelude.{◌≡◌};
ghost use Rattle.counting.specs.Sum.{sum_of, summed};

pub fn sum(numbers: &[u64]) -> Option<u64>
    ensures { result ≡ summed (sum_of numbers.now) }
{
    let mut sum: u64 = 0;
    for i in 0..numbers.len() {
        sum = sum.checked_add(numbers[i])?;
    }
    Some(sum)
}
