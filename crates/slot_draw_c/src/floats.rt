// The exports of the float kernels. A float is handed in as a double, any NaN included, and told by its bits.
ghost use Rattle.slot_draw.specs.Binomial as binv;
ghost use Rattle.slot_draw.specs.Ziggurat as round;

// A setup is seven cells: the number, the kind, n, the bits of r, s and a, and the flip.
#[unsafe(no_mangle)]
pub extern "C" fn slot_draw_binomial_new(n: u64, p: f64, setup: &mut [u64; 7])
    ensures { binv.New n p setup.new }
{
    slot_draw::floats::slot_draw_binomial_new(n, p, setup);
}

#[unsafe(no_mangle)]
pub extern "C" fn slot_draw_binomial_draw(setup: &[u64; 7], pool: &[u64], answer: &mut [u64; 3])
    ensures { binv.Draw setup.now pool.now answer.new }
{
    slot_draw::floats::slot_draw_binomial_draw(setup, pool, answer);
}

// A round is five cells: the number, the kind, the bits of its two floats, and the words.
#[unsafe(no_mangle)]
pub extern "C" fn slot_draw_ziggurat_round(
    edges: &[f64],
    densities: &[f64],
    symmetric: bool,
    pool: &[u64],
    answer: &mut [u64; 5],
)
    ensures { round.Round symmetric edges.now densities.now pool.now answer.new }
{
    slot_draw::floats::slot_draw_ziggurat_round(edges, densities, symmetric, pool, answer);
}
