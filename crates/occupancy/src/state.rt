// How much of the time a state is occupied: what its emissions, its arcs and its end are measured by.
ghost use Rattle.std.specs.Prelude.{◌≡◌, ◌||◌, ◌<◌};
ghost use Rattle.floats.specs.Float.{is_minus_infinity};
ghost use Rattle.occupancy.specs.Occupancy as Spec;
ghost use Rattle.occupancy.specs.inner.Rows.{walks_in, RowsStand};

use crate::Rows;
use floats::is_minus_infinity;
use model::entry;
use sums::pair::ln_sub;
use sums::sum::ln_sum_by;

// The occupancy of state i at time t. The caller shows that both walks have a row for each sample.
#[tactic(auto, using(lists::proofs::Places::within_rows), unfolding(crate::specs::Occupancy::occupancy))]
pub fn occupancy(rows: &Rows, i: usize, t: usize) -> f64
    requires { RowsStand rows.now × (i < rows.now.shape.states) × (t < rows.now.samples) }
    ensures { result ≡ Spec.occupancy (walks_in rows.now) i t }
{
    let states = rows.shape.states;
    let back = rows.samples - 1 - t;
    (entry(rows.alpha, t * states + i) + entry(rows.beta, back * states + i)) - rows.probx
}

// The sum of the occupancies of state i over time. The caller shows that both walks have a row for each sample.
#[tactic(auto, unfolding(crate::specs::Occupancy::gamma))]
pub fn gamma(rows: &Rows, i: usize) -> f64
    requires { RowsStand rows.now × (i < rows.now.shape.states) }
    ensures { result ≡ Spec.gamma (walks_in rows.now) i }
{
    ln_sum_by(rows.samples, |t| occupancy(rows, i, t))
}

// What the arcs out of state i are divided by. The caller shows that both walks have a row for each sample, and that gamma is the state's.
#[tactic(auto, unfolding(crate::specs::Occupancy::denominator))]
pub fn denominator(rows: &Rows, i: usize, gamma: f64) -> f64
    requires standing { RowsStand rows.now × (i < rows.now.shape.states) }
    requires gamma_value { gamma ≡ Spec.gamma (walks_in rows.now) i }
    ensures { result ≡ Spec.denominator rows.now.shape.ends (walks_in rows.now) i }
{
    if rows.shape.ends {
        return gamma;
    }
    ln_sub(gamma, occupancy(rows, i, rows.samples - 1))
}

// Whether a state of this gamma and denominator has no mass.
pub fn is_massless(gamma: f64, denominator: f64) -> bool
    ensures { result ≡ (is_minus_infinity gamma || is_minus_infinity denominator) }
{
    is_minus_infinity(gamma) || is_minus_infinity(denominator)
}
