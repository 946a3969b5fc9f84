// What the walks have in common of a row, whatever they make of it: the emissions of its sample, laid out by state, with a state barred or
// without, and the first row.

#![tactic(auto)]

ghost use Rattle.std.specs.Prelude.{◌≡◌, cond, ◌&&◌, ◌+◌, ◌*◌, ◌≤◌, ◌<◌, eqb, ltb, length, set};
ghost use Rattle.floats.specs.Float.{at, minus_infinity};
ghost use Rattle.lists.specs.Lists.{tab, over};
ghost use Rattle.model.specs.Lent.{S, behind};
ghost use Rattle.emission.specs.Barring.{barring_by};
ghost use Rattle.emission.specs.inner.Row.{Emits, EmitsAt, emissions_of, first_row, Beginning};

use floats::minus_infinity;
use model::{Lent, entry};

// Lays out the emissions of symbol x, state by state.
#[tactic(auto, using(lists::proofs::Over::over_tab_none, lists::proofs::Over::over_tab_more))]
fn lay_symbol(emission: &[f64], states: usize, symbols: usize, x: usize, emissions: &mut [f64])
    requires { Emits states symbols emission.now x emissions.old }
    ensures { emissions.new ≡ over 0
        (tab states (λ j. at emission.now (j * symbols + x))) emissions.old }
{
    for j in 0..states {
        emissions[j] = entry(emission, j * symbols + x);
    }
}

// Lays out the emissions of the sample at time t, state by state. The caller shows that the table has them, and that there is room. A walk
// lends the same array for every sample.
pub fn lay_emissions(lent: &Lent, t: usize, emissions: &mut [f64])
    requires { EmitsAt (behind lent.now) t emissions.old }
    ensures { emissions.new ≡ over 0
        (tab (S (behind lent.now)) (emissions_of (behind lent.now) t)) emissions.old }
{
    let tables = lent.tables;
    let shape = tables.shape;
    lay_symbol(
        tables.emission,
        shape.states,
        shape.symbols,
        lent.samples[t] as usize,
        emissions,
    );
}

// A state that cannot be at one sample.
#[derive(Clone, Copy)]
pub struct Bar {
    pub index: usize,
    pub state: usize,
}

impl Bar {
    // Bars the state where sample t is the one at which it is barred: its emission is minus infinity then.
    fn lay(self, states: usize, t: usize, emissions: &mut [f64])
        requires { states ≤ length emissions.old }
        ensures { emissions.new ≡ cond (eqb t self.index && ltb self.state states)
            (set emissions.old self.state minus_infinity) emissions.old }
    {
        if t == self.index && self.state < states {
            emissions[self.state] = minus_infinity();
        }
    }
}

// The same as `lay_emissions`, of a model in which a state is barred, or none.
#[tactic(auto, using(crate::proofs::Barring::bar_laid))]
pub fn lay_barred(lent: &Lent, bar: Option<Bar>, t: usize, emissions: &mut [f64])
    requires { EmitsAt (behind lent.now) t emissions.old }
    ensures { emissions.new ≡ over 0
        (tab (S (behind lent.now)) (barring_by bar (emissions_of (behind lent.now)) t))
        emissions.old }
{
    lay_emissions(lent, t, emissions);
    if let Some(bar) = bar {
        bar.lay(lent.tables.shape.states, t, emissions);
    }
}

// The first row of the values: initial + emission, where these are the emissions of the first sample. The caller shows that there is one
// for each state, and room for the row.
#[tactic(auto, using(lists::proofs::Over::over_tab_none, lists::proofs::Over::over_tab_more))]
pub fn first_row(initial: &[f64], emissions: &[f64], values: &mut [f64])
    requires { Beginning initial.now emissions.now values.old }
    ensures { values.new ≡ over 0 (first_row initial.now emissions.now) values.old }
{
    for j in 0..initial.len() {
        values[j] = entry(initial, j) + entry(emissions, j);
    }
}
