// What a lent alias table amounts to, whoever made it: whether it draws each index as often as its weight says, and which
// weights it shows. Both add up what each index has of its own slot and what other slots lend it.
#![tactic(auto)]

ghost use Rattle.std.specs.Prelude.{◌≡◌, ℕ, ◌*◌, ◌/◌, ◌<◌, ◌^◌, min, eqb, length, get_or, is_some};
ghost use Rattle.counting.specs.Below.{all_below, list_below};
ghost use Rattle.weighted_alias.specs.New.{Scales};
ghost use Rattle.alias_checker.specs.Shares as shares;
ghost use Rattle.alias_checker.specs.Check as check;
ghost use Rattle.alias_checker.specs.Weights as weights;

use refusal::Refusal;

// Writes the smaller of each of the odds and a limit: for the largest u64 the odds themselves.
fn cap(odds: &[u64], limit: u64, cells: &mut [u64])
    requires { length cells.old ≡ length odds.now }
    ensures capped { cells.new ≡ list_below (length odds.now) (λ i. min (get_or odds.now i 0) limit) }
    ensures uncapped { limit ≡ 18446744073709551615 → cells.new ≡ odds.now }
{
    for (i, own) in odds.iter().enumerate() {
        cells[i] = (*own).min(limit);
    }
}

// Whether each cell is n times its weight.
fn agrees(weights: &[u64], cells: &[u64]) -> bool
    requires { (length cells.now ≡ length weights.now) × Scales weights.now }
    ensures { result ≡ all_below (length weights.now) (λ i. eqb (get_or cells.now i 0) (length weights.now * get_or weights.now i 0)) }
{
    let n = weights.len() as u64;
    cells
        .iter()
        .zip(weights)
        .all(|(cell, weight)| *cell == n * *weight)
}

// Each cell divided by the number of cells.
fn divide(cells: &mut [u64])
    requires { 0 < length cells.old }
    ensures { cells.new ≡ list_below (length cells.old) (λ i. get_or cells.old i 0 / length cells.old) }
{
    let n = cells.len() as u64;
    for cell in cells.iter_mut() {
        *cell /= n;
    }
}

// A lent table with a link for each of its odds, and the sum of the weights that it is to draw by.
#[derive(Clone, Copy)]
struct Table<'a> {
    odds: &'a [u64],
    links: &'a [u32],
    sum: u64,
    ghost equal: { length links.now ≡ length odds.now },
}

impl<'a> Table<'a> {
    // Adds what each slot lends to the cell that it is linked to. None where a link that is followed is no slot's, or where a
    // cell would exceed u64.
    fn lend(&self, cells: &mut [u64]) -> Option<()>
        requires { (length cells.old ≡ length self.now.odds.now) × ((i : ℕ) → get_or cells.old i 0 < 2 ^ 64) }
        ensures { shares.Lent self.now.odds.now self.now.links.now self.now.sum cells.old (is_some result) cells.new }
    {
        for (own, link) in self.odds.iter().zip(self.links) {
            if *own < self.sum {
                let link = *link as usize;
                let cell = cells.get(link)?;
                cells[link] = cell.checked_add(self.sum - *own)?;
            }
        }
        Some(())
    }

    // Whether the table draws each index as often as its weight says.
    fn judge(&self, weights: &[u64], work: &mut [u64]) -> bool
        requires { check.Judges weights.now (length self.now.odds.now) (length work.old) self.now.sum }
        ensures { check.Judged weights.now self.now.odds.now self.now.links.now result work.new }
    {
        cap(self.odds, self.sum, work);
        if self.lend(work).is_some() && agrees(weights, work) {
            return true;
        }
        work.fill(0);
        false
    }

    // The weights that the table shows, or zeros.
    fn restore(&self, output: &mut [u64]) -> Result<(), Refusal>
        requires { (length output.old ≡ length self.now.odds.now) × (0 < length self.now.odds.now) }
        ensures { weights.Restored self.now.odds.now self.now.links.now self.now.sum result output.new }
    {
        cap(self.odds, u64::MAX, output);
        if self.lend(output).is_some() {
            divide(output);
            return Ok(());
        }
        output.fill(0);
        Err(Refusal::Damaged)
    }
}

// Whether the table draws each index as often as its weight says.
pub fn check(
    weights: &[u64],
    odds: &[u64],
    links: &[u32],
    work: &mut [u64],
) -> Result<bool, Refusal>
    ensures { check.Promise weights.now odds.now links.now work.old result work.new }
{
    let n = weights.len();
    weighted_alias::slots(n, odds.len() != n || links.len() != n || work.len() != n)?;
    let sum = weighted_alias::weight_sum(weights)?;
    Ok(Table { odds, links, sum }.judge(weights, work))
}

// Writes the weights that the table shows, and answers their number.
pub fn weights(odds: &[u64], links: &[u32], sum: u64, output: &mut [u64]) -> Result<usize, Refusal>
    ensures { weights.Promise odds.now links.now sum output.old result output.new }
{
    let n = odds.len();
    weighted_alias::slots(n, links.len() != n || output.len() != n)?;
    if sum == 0 {
        return Err(Refusal::InsufficientNonZero);
    }
    Table { odds, links, sum }.restore(output)?;
    Ok(n)
}
