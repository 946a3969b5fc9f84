// How often each arc from state to state is taken.
ghost use Rattle.std.specs.Prelude.{◌≡◌, ◌+◌, ◌-◌, ◌<◌};
ghost use Rattle.model.specs.Lent.{S, T};
ghost use Rattle.occupancy.specs.inner.Rows.{Readable, Holds, lent_of, arcs_of, arc_sum_of};

use crate::Pass;
use model::entry;
use sums::sum::ln_sum_by;

// The arc from state i at time t to state j.
#[tactic(auto, using(lists::proofs::Places::within_rows), unfolding(crate::specs::Occupancy::arc))]
fn arc(pass: &Pass, i: usize, j: usize, t: usize) -> f64
    requires readable { Readable pass.now }
    requires i_lt_states { (i < S (lent_of pass.now)) × (j < S (lent_of pass.now)) × (t + 1 < T (lent_of pass.now)) }
    ensures { result ≡ arcs_of pass.now i j t }
{
    let tables = pass.lent.tables;
    let samples = pass.lent.samples;
    let shape = tables.shape;
    let states = shape.states;
    let back = samples.len() - 2 - t;
    let x = samples[t + 1] as usize;
    let out = entry(pass.alpha, t * states + i) + entry(tables.transition, i * states + j);
    let over = out + entry(pass.beta, back * states + j);
    (over + entry(tables.emission, j * shape.symbols + x)) - pass.probx
}

// The sum of the arcs from state i to state j over time.
#[tactic(auto, unfolding(crate::specs::Occupancy::arc_sum))]
fn arc_sum(pass: &Pass, i: usize, j: usize) -> f64
    requires readable { Readable pass.now }
    requires i_lt_states { (i < S (lent_of pass.now)) × (j < S (lent_of pass.now)) }
    ensures { result ≡ arc_sum_of pass.now i j }
{
    ln_sum_by(pass.lent.samples.len() - 1, |t| arc(pass, i, j, t))
}

// The sums of the arcs from state i to every state. The caller shows that both walks have a row for each sample, that every sample is a
// symbol, and that the tables have the shape's size.
#[tactic(auto, using(crate::proofs::Held::holds_more))]
pub fn arc_sums(pass: &Pass, i: usize) -> [f64; 64]
    requires readable { Readable pass.now }
    requires i_lt_states { i < S (lent_of pass.now) }
    ensures { Holds (S (lent_of pass.now)) (arc_sum_of pass.now i) result }
{
    let mut sums = [0.0; 64];
    for j in 0..pass.lent.tables.shape.states {
        sums[j] = arc_sum(pass, i, j);
    }
    sums
}
