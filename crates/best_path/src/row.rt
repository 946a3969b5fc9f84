// One row of values and predecessors, whatever its emissions are.
ghost use Rattle.std.specs.Prelude.{◌≡◌, ◌≤◌, length};
ghost use Rattle.lists.specs.Lists.{over};
ghost use Rattle.best_path.specs.inner.Row.{first_from, Layable, RowStored};

use crate::step::next_row;
use emission::first_row;

// The predecessors of the first row: each state is its own.
#[tactic(auto, using(lists::proofs::Over::over_tab_none, lists::proofs::Over::over_tab_more))]
pub fn first_from(states: usize, from: &mut [u8])
    requires { (states ≤ 64) × (states ≤ length from.old) }
    ensures { from.new ≡ over 0 (first_from states) from.old }
{
    for j in 0..states {
        from[j] = j as u8;
    }
}

// Row t, laid from place `target` on, where these are the emissions of its sample: the first row from the initial entries, any other from
// the row before, which stands at `source`. The caller shows that the tables fit, that both rows are within the memory, and that the first
// row's place is the front.
pub fn lay_row(
    states: usize,
    transition: &[f64],
    initial: &[f64],
    emissions: &[f64],
    t: usize,
    source: usize,
    target: usize,
    values: &mut [f64],
    from: &mut [u8],
)
    requires { Layable states transition.now initial.now emissions.now t source target values.old from.old }
    ensures { RowStored states transition.now initial.now emissions.now t source target
        values.old values.new from.old from.new }
{
    if t == 0 {
        first_row(initial, emissions, values);
        first_from(states, from);
    } else {
        next_row(states, transition, emissions, source, target, values, from);
    }
}
