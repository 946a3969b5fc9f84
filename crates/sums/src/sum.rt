// The one sum of log-probabilities that the leaf, forward, backward and a training pass share, wherever its terms come from: a caller
// passes a function that gives the term at each place. A sum takes two passes over its terms. The first finds the first greatest (no_peak,
// then raise for each term), the second sums exp(x - p) over the others (0.0, then plus_exp for each term), and close ends it.
// The greatest has to be known before the first exp. The Rust keeps the terms in a Vec for that. Here a sum needs neither heap nor buffer:
// it asks for each term once more in the second pass, also for the many of a state over 4,096 samples. A term is a few additions beside
// an exp, and a buffer would have to be lent, checked and wiped in every call. A term is worked out from tables that do not change in
// between, so both passes meet the same bits.
ghost use Rattle.std.specs.Prelude.{◌≡◌, ℕ, Float, length};
ghost use Rattle.floats.specs.Float.{at};
ghost use Rattle.sums.specs.Sum.{no_peak, raised, peak, plus_exp, exp_sum, grown, ln_sum};
ghost use Rattle.sums.specs.inner.Open.{opened, closed_sum};
ghost use Rattle.sums.specs.inner.Terms.{HasTerms, TermsAre};

use floats::{is_infinite, is_minus_infinity, minus_infinity};
use kernels::{exp_of, ln_of};

// The first greatest of the terms so far, and its place among them.
#[derive(Clone, Copy)]
pub struct Peak {
    pub value: f64,
    pub place: usize,
}

// A sum before its logarithm is taken: the greatest of its terms, and the sum of exp(x - p) over the others. The steps of a logarithm
// wait for one another, so a caller with many sums takes their logarithms at the end, one right after the other, where they overlap.
#[derive(Clone, Copy)]
pub struct Open {
    pub value: f64,
    pub sum: f64,
}

// Before the first term: minus infinity, which every other number exceeds.
pub fn no_peak() -> Peak
    ensures { result ≡ no_peak }
{
    Peak {
        value: minus_infinity(),
        place: 0,
    }
}

// The term x comes next, at place k.
#[tactic(auto, unfolding(crate::specs::Sum::raised))]
pub fn raise(peak: Peak, x: f64, k: usize) -> Peak
    ensures { result ≡ raised peak x k }
{
    if peak.value < x {
        Peak { value: x, place: k }
    } else {
        peak
    }
}

// The term x comes next, at place k, after terms whose exponentials sum to sum: the greatest one and minus infinity add nothing.
#[tactic(auto, unfolding(crate::specs::Sum::plus_exp))]
pub fn plus_exp(peak: Peak, sum: f64, x: f64, k: usize) -> f64
    ensures { result ≡ plus_exp peak sum x k }
{
    if k == peak.place || is_minus_infinity(x) {
        return sum;
    }
    sum + exp_of(x - peak.value)
}

// What the two passes come to.
#[tactic(auto, unfolding(crate::specs::Sum::grown))]
pub fn close(peak: Peak, sum: f64) -> f64
    ensures { result ≡ grown peak sum }
{
    if is_infinite(peak.value) {
        return peak.value;
    }
    peak.value + ln_of(1.0 + sum)
}

// The first greatest of n terms, and its place.
#[tactic(auto, unfolding(crate::specs::Sum::peak))]
fn greatest<F: Fn(usize) -> f64>(n: usize, term: &F) -> Peak
    requires { HasTerms F.Fn n term.now }
    ensures { (f : ℕ → Float) → TermsAre F.Fn n term.now f → result ≡ peak n f }
{
    let mut best = no_peak();
    for k in 0..n {
        best = raise(best, term(k), k);
    }
    best
}

// The sum of exp(x - p) over the other terms x that are not minus infinity, p being the value of best.
#[tactic(auto, unfolding(crate::specs::Sum::exp_sum))]
fn sum_others<F: Fn(usize) -> f64>(n: usize, term: &F, best: Peak) -> f64
    requires { HasTerms F.Fn n term.now }
    ensures { (f : ℕ → Float) → TermsAre F.Fn n term.now f → result ≡ exp_sum best n f }
{
    let mut sum = 0.0;
    for k in 0..n {
        sum = plus_exp(best, sum, term(k), k);
    }
    sum
}

// The sum of n terms before its logarithm is taken, where term gives the one at a place.
#[tactic(auto, unfolding(crate::specs::inner::Open::opened))]
fn open_sum_by<F: Fn(usize) -> f64>(n: usize, term: F) -> Open
    requires { HasTerms F.Fn n term }
    ensures { (f : ℕ → Float) → TermsAre F.Fn n term f → result ≡ opened n f }
{
    let best = greatest(n, &term);
    Open {
        value: best.value,
        sum: sum_others(n, &term, best),
    }
}

// The sum of the entries of xs, before its logarithm is taken.
pub fn open_sum(xs: &[f64]) -> Open
    ensures { result ≡ opened (length xs.now) (at xs.now) }
{
    open_sum_by(xs.len(), |k| xs[k])
}

// What an open sum comes to.
#[tactic(auto, unfolding(crate::specs::inner::Open::closed_sum))]
pub fn close_sum(whole: Open) -> f64
    ensures { result ≡ closed_sum whole }
{
    let peak = Peak {
        value: whole.value,
        place: 0,
    };
    close(peak, whole.sum)
}

// The sum of n terms, where term gives the one at a place.
#[tactic(auto, using(crate::proofs::Loops::closed_done))]
pub fn ln_sum_by<F: Fn(usize) -> f64>(n: usize, term: F) -> f64
    requires { HasTerms F.Fn n term }
    ensures { (f : ℕ → Float) → TermsAre F.Fn n term f → result ≡ ln_sum n f }
{
    close_sum(open_sum_by(n, term))
}

// The sum of the entries of xs.
pub fn ln_sum(xs: &[f64]) -> f64
    ensures { result ≡ ln_sum (length xs.now) (at xs.now) }
{
    ln_sum_by(xs.len(), |k| xs[k])
}
