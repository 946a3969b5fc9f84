// The likelihood of the samples under a model, by the forward and the backward walk (Rabiner's forward-backward procedure).
// Both walks go down the rows of the lent values: row i is alpha at sample i or, going back, beta at sample T-1-i. The trait Way says what
// differs: the first row, a cell, the time of a row's sample and the last sum; the forward walk alone needs a sample. A sum has a term for
// each state, 64 at most, so they are laid out in a local array, as the emissions of a row's sample are: a walk reads them from there,
// whatever an emission is made of. The logarithms of a row are taken at its end, one right after the other.

#![tactic(auto)]

ghost use Rattle.std.specs.Prelude.{◌≡◌, Bool, false, true, ℕ, ◌*◌, ◌+◌, ◌<◌, ◌≤◌, length, Float};
ghost use Rattle.sums.specs.inner.Open.{opened};
ghost use Rattle.model.specs.Lent.{T, behind};
ghost use Rattle.model.specs.Model.{model_of};
ghost use Rattle.likelihood.specs.Call.{Forward, Backward};
ghost use Rattle.likelihood.specs.inner.Sum.{last_sum, Closing};
ghost use Rattle.likelihood.specs.inner.Row.{Starting, Begun, cell_term, Fitting, Opened, Stepped};
ghost use Rattle.likelihood.specs.inner.Walk.{Ready, time_of, Filled, Valued};
ghost use Rattle.likelihood.specs.inner.Call.{Answered, fault_for};

use answer::{Answer, Checked, done};
use checks::{Room, check_lengths, check_rest};
use emission::{first_row, lay_emissions};
use floats::minus_infinity;
use model::{Lent, entry};
use sums::sum::{Open, close_sum, open_sum};

// The sum of n terms, before its logarithm is taken: that of f 0, f 1, .., where f is any rule that gives what `term` does.
#[tactic(auto, using(crate::proofs::Fronts::opened_front))]
fn sum_of<F: Fn(usize) -> f64>(n: usize, term: F) -> Open
    requires few_terms { n ≤ 64 }
    requires callable { (k : ℕ) → k < n → F.pre term k }
    ensures { (f : ℕ → Float) → ((k : ℕ) (x : Float) → k < n → F.post term k x → x ≡ f k) → result ≡ opened n f }
{
    let mut terms = [0.0; 64];
    for k in 0..n {
        terms[k] = term(k);
    }
    open_sum(&terms[..n])
}

// One of the two ways in which a walk makes its rows.
trait Way {
    // Whether it is the backward walk.
    const BACK: bool;

    ghost BACK: { Bool };

    // The first row.
    fn begin(initial: &[f64], end: &[f64], emissions: &[f64], values: &mut [f64])
        requires { Starting initial.now end.now emissions.now values.old }
        ensures { Begun BACK initial.now end.now emissions.now
            values.old values.new };

    // State j of the row after `row`, before its logarithm is taken.
    fn cell(row: &[f64], transition: &[f64], emissions: &[f64], states: usize, j: usize) -> Open
        requires fitting { Fitting states transition.now emissions.now }
        requires row_len { (length row.now ≡ states) × (j < states) }
        ensures { result ≡ opened states (cell_term BACK states transition.now emissions.now row.now j) };

    // The time of the sample whose emissions enter row i + 1, of as many samples.
    fn time_of(samples: usize, i: usize) -> usize
        requires { i + 1 < samples }
        ensures { result ≡ time_of BACK samples i };

    // What the last row sums up to.
    fn last_sum(row: &[f64], initial: &[f64], end: &[f64], emissions: &[f64]) -> f64
        requires { Closing row.now initial.now end.now emissions.now }
        ensures { result ≡ last_sum BACK row.now initial.now end.now emissions.now };
}

// The forward walk, from the first sample to the last: a row is alpha at its sample.
struct Alpha;

impl Way for Alpha {
    const BACK: bool = false;

    ghost BACK = { false };

    fn begin(initial: &[f64], end: &[f64], emissions: &[f64], values: &mut [f64]) {
        first_row(initial, emissions, values);
    }

    #[tactic(auto, unfolding(crate::specs::inner::Row::cell_term))]
    fn cell(row: &[f64], transition: &[f64], emissions: &[f64], states: usize, j: usize) -> Open {
        sum_of(
            states,
            |k| (entry(row, k) + entry(transition, k * states + j)) + entry(emissions, j),
        )
    }

    fn time_of(samples: usize, i: usize) -> usize {
        i + 1
    }

    #[tactic(auto, using(sums::proofs::Loops::closed_done), unfolding(crate::specs::inner::Sum::last_sum))]
    fn last_sum(row: &[f64], initial: &[f64], end: &[f64], emissions: &[f64]) -> f64 {
        close_sum(sum_of(row.len(), |k| entry(row, k) + entry(end, k)))
    }
}

// The backward walk, from the last sample to the first: a row is beta at its sample.
struct Beta;

impl Way for Beta {
    const BACK: bool = true;

    ghost BACK = { true };

    fn begin(initial: &[f64], end: &[f64], emissions: &[f64], values: &mut [f64]) {
        for j in 0..end.len() {
            values[j] = entry(end, j);
        }
    }

    #[tactic(auto, unfolding(crate::specs::inner::Row::cell_term))]
    fn cell(row: &[f64], transition: &[f64], emissions: &[f64], states: usize, j: usize) -> Open {
        sum_of(
            states,
            |k| (entry(row, k) + entry(transition, j * states + k)) + entry(emissions, k),
        )
    }

    fn time_of(samples: usize, i: usize) -> usize {
        samples - 1 - i
    }

    #[tactic(auto, using(sums::proofs::Loops::closed_done), unfolding(crate::specs::inner::Sum::last_sum))]
    fn last_sum(row: &[f64], initial: &[f64], end: &[f64], emissions: &[f64]) -> f64 {
        close_sum(sum_of(
            row.len(),
            |k| (entry(row, k) + entry(initial, k)) + entry(emissions, k),
        ))
    }
}

// The row after `row`, before its logarithms are taken: the sums stand at the front.
fn open_row<W: Way>(row: &[f64], transition: &[f64], emissions: &[f64], states: usize) -> [Open; 64]
    requires fitting { Fitting states transition.now emissions.now }
    requires row_len { length row.now ≡ states }
    ensures { Opened states result
        (cell_term W.BACK states transition.now emissions.now row.now) }
{
    let mut sums = [Open {
        value: 0.0,
        sum: 0.0,
    }; 64];
    for j in 0..states {
        sums[j] = W::cell(row, transition, emissions, states, j);
    }
    sums
}

// The row after the one that starts at `at`.
fn next_row<W: Way>(
    values: &mut [f64],
    at: usize,
    transition: &[f64],
    emissions: &[f64],
    states: usize,
)
    requires fitting { Fitting states transition.now emissions.now }
    requires states_in_bounds { at + states + states ≤ length values.old }
    ensures { Stepped W.BACK states at transition.now emissions.now
        values.old values.new }
{
    let base = at + states;
    let sums = open_row::<W>(&values[at..base], transition, emissions, states);
    for j in 0..states {
        values[base + j] = close_sum(sums[j]);
    }
}

// All rows.
fn walk<W: Way>(lent: &Lent, values: &mut [f64])
    requires { Ready (behind lent.now) values.old }
    ensures { Filled W.BACK (model_of (behind lent.now)) (T (behind lent.now)) values.old values.new }
{
    let tables = lent.tables;
    let states = tables.shape.states;
    let n = lent.samples.len();
    let mut emissions = [0.0; 64];
    lay_emissions(lent, 0, &mut emissions);
    W::begin(tables.initial, tables.end, &emissions[..states], values);
    for i in 0..n - 1 {
        lay_emissions(lent, W::time_of(n, i), &mut emissions);
        next_row::<W>(
            values,
            i * states,
            tables.transition,
            &emissions[..states],
            states,
        );
    }
}

// All rows, and the value of the walk.
fn value_of<W: Way>(lent: &Lent, values: &mut [f64]) -> f64
    requires { Ready (behind lent.now) values.old }
    ensures { Valued W.BACK (model_of (behind lent.now)) (T (behind lent.now)) values.old result values.new }
{
    walk::<W>(lent, values);
    let tables = lent.tables;
    let states = tables.shape.states;
    let mut emissions = [0.0; 64];
    lay_emissions(lent, 0, &mut emissions);
    let at = (lent.samples.len() - 1) * states;
    let to = at + states;
    W::last_sum(
        &values[at..to],
        tables.initial,
        tables.end,
        &emissions[..states],
    )
}

// The checks of either walk: values is the length of output 5.
fn check(needs_sample: bool, lent: &Lent, values: usize) -> Checked
    ensures { result ≡ fault_for needs_sample (behind lent.now) values }
{
    check_lengths(needs_sample, lent)?;
    let places = lent.samples.len() * lent.tables.shape.states;
    check_rest(lent, &[Room::of(places, values)])
}

// The answer of either walk. Of no samples, which the checks of the backward walk alone let through, it is minus infinity.
fn answer_of<W: Way>(lent: &Lent, values: &mut [f64]) -> Answer
    ensures { Answered W.BACK (behind lent.now) values.old result values.new }
{
    if let Err(refusal) = check(!W::BACK, lent, values.len()) {
        return refusal;
    }
    if lent.samples.is_empty() {
        return done(minus_infinity());
    }
    done(value_of::<W>(lent, values))
}

// The likelihood of the samples, by the forward walk. Row t of the values becomes alpha at sample t, a state a place, and their surplus
// stays; the answer is the sum of the last row + end. No samples are refused.
pub fn forward(lent: &Lent, values: &mut [f64]) -> Answer
    ensures { Forward (behind lent.now) values.old result values.new }
{
    answer_of::<Alpha>(lent, values)
}

// The likelihood of the samples, by the backward walk. Row i of the values becomes beta at sample T-1-i, a state a place, and their
// surplus stays; the answer is the sum of (last row + initial) + the first sample's emissions. Of no samples it is minus infinity.
pub fn backward(lent: &Lent, values: &mut [f64]) -> Answer
    ensures { Backward (behind lent.now) values.old result values.new }
{
    answer_of::<Beta>(lent, values)
}
