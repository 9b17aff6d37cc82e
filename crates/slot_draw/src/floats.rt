// The functions of the float kernels. A float is handed in as a double, any NaN included, and told by its bits.
ghost use Rattle.std.specs.Prelude.{◌≡◌};
ghost use Rattle.slot_draw.specs.Binomial as binv;
ghost use Rattle.slot_draw.specs.Ziggurat as round;

use crate::answer::tell;
use binomial::{Method, SetupNumbers};
use ziggurat::RoundNumbers;

// A setup is seven cells: the number, the kind, n, the bits of r, s and a, and the flip.
pub fn slot_draw_binomial_new(n: u64, p: f64, setup: &mut [u64; 7])
    ensures { binv.New n p setup.new }
{
    *setup = SetupNumbers::from(binomial::new(n, p)).into();
}

// The setup that seven cells hold, whatever they are. Cell 0 is not looked at.
fn method_of(setup: &[u64; 7]) -> Method
    ensures { result ≡ binv.method_of setup.now }
{
    Method::from(SetupNumbers::from(*setup))
}

pub fn slot_draw_binomial_draw(setup: &[u64; 7], pool: &[u64], answer: &mut [u64; 3])
    ensures { binv.Draw setup.now pool.now answer.new }
{
    tell(answer, binomial::draw(method_of(setup), pool));
}

// A round is five cells: the number, the kind, the bits of its two floats, and the words.
pub fn slot_draw_ziggurat_round(
    edges: &[f64],
    densities: &[f64],
    symmetric: bool,
    pool: &[u64],
    answer: &mut [u64; 5],
)
    ensures { round.Round symmetric edges.now densities.now pool.now answer.new }
{
    *answer = RoundNumbers::from(ziggurat::round(edges, densities, symmetric, pool)).into();
}
