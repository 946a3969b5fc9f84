// The step from one row to the next: every state's best predecessor, then the values and the predecessors of the next row. It reads a row
// anywhere and writes anywhere.
ghost use Rattle.std.specs.Prelude.{◌≡◌, ◌&&◌, ◌||◌, ◌≤◌, length, get_or};
ghost use Rattle.std.specs.Float.Ieee.{le};
ghost use Rattle.floats.specs.Float.{◌⊕◌, at, is_minus_infinity};
ghost use Rattle.lists.specs.Lists.{tab, over};
ghost use Rattle.best_path.specs.inner.Step.{by_sum, by_rank, Offered, Rankable, Ranked, Summable, Placeable, Continuing, Stepped};

use floats::is_minus_infinity;
use model::entry;

// Whether a sum is taken in place of the best so far: where that one is low it always is, else where it is at least as great.
fn is_taken(low: bool, best: f64, sum: f64) -> bool
    ensures { result ≡ (low || le best sum) }
{
    low || best <= sum
}

// Predecessor k, of this value and with these transitions, is held against every state's best so far, by their sums.
fn hold(low: bool, k: usize, value: f64, step: &[f64], sums: &mut [f64], winners: &mut [usize])
    requires { (length step.now ≤ length sums.old) × (length step.now ≤ length winners.old) }
    ensures { Offered (by_sum low value step.now sums.old) k value step.now
        sums.old sums.new winners.old winners.new }
{
    for j in 0..step.len() {
        let sum = value + entry(step, j);
        if is_taken(low, entry(sums, j), sum) {
            sums[j] = sum;
            winners[j] = k;
        }
    }
}

// The same by their ranks: one at minus infinity is taken only where the best so far is low, that is at minus infinity or none.
// Gives whether the best is low then.
fn offer(
    low: bool,
    k: usize,
    value: f64,
    step: &[f64],
    sums: &mut [f64],
    winners: &mut [usize],
) -> bool
    requires { (length step.now ≤ length sums.old) × (length step.now ≤ length winners.old) }
    ensures low { result ≡ (low && is_minus_infinity value) }
    ensures held { Offered (by_rank low value step.now sums.old) k value step.now
        sums.old sums.new winners.old winners.new }
{
    if low || !is_minus_infinity(value) {
        hold(low, k, value, step, sums, winners);
    }
    low && is_minus_infinity(value)
}

// Every state's best predecessor, where `row` is the row before, and the sum of its value and transition. The caller shows that the table
// fits, and lends a place for each state.
pub fn predecessors(
    states: usize,
    transition: &[f64],
    row: &[f64],
    sums: &mut [f64],
    winners: &mut [usize],
)
    requires { Rankable states transition.now row.now sums.old winners.old }
    ensures { Ranked states transition.now row.now sums.new winners.new }
{
    let mut low = true;
    for k in 0..states {
        let start = k * states;
        let step = &transition[start..start + states];
        low = offer(low, k, entry(row, k), step, sums, winners);
    }
}

// The values of a row, laid from place `target` on: the best predecessors' sums, each with its emission. The caller shows that there is one
// of each for every state, and room.
#[tactic(auto, using(lists::proofs::Over::over_tab_none, lists::proofs::Over::over_tab_more))]
pub fn lay_sums(states: usize, sums: &[f64], emissions: &[f64], target: usize, values: &mut [f64])
    requires { Summable states sums.now emissions.now target values.old }
    ensures { values.new ≡ over target
        (tab states (λ j. at sums.now j ⊕ at emissions.now j)) values.old }
{
    for j in 0..states {
        values[target + j] = entry(sums, j) + entry(emissions, j);
    }
}

// The predecessors of a row, laid from place `target` on. The caller shows that there is one for every state, each a byte, and room.
#[tactic(auto, using(lists::proofs::Over::over_tab_none, lists::proofs::Over::over_tab_more))]
pub fn lay_winners(states: usize, winners: &[usize], target: usize, from: &mut [u8])
    requires { Placeable states winners.now target from.old }
    ensures { from.new ≡ over target (tab states (λ j. get_or winners.now j 0)) from.old }
{
    for j in 0..states {
        from[target + j] = winners[j] as u8;
    }
}

// The row after the one at `source`, for a sample of these emissions, laid from place `target` on. The caller shows that the table fits,
// that both rows are within the memory, and that there is an emission for each state.
#[tactic(auto, using(crate::proofs::Steps::ranked_below))]
pub fn next_row(
    states: usize,
    transition: &[f64],
    emissions: &[f64],
    source: usize,
    target: usize,
    values: &mut [f64],
    from: &mut [u8],
)
    requires { Continuing states transition.now emissions.now source target values.old from.old }
    ensures { Stepped states transition.now emissions.now source target
        values.old values.new from.old from.new }
{
    let row = &values[source..source + states];
    let mut sums = [0.0; 64];
    let mut winners = [0; 64];
    predecessors(states, transition, row, &mut sums, &mut winners);
    lay_sums(states, &sums, emissions, target, values);
    lay_winners(states, &winners, target, from);
}
