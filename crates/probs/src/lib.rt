// Log-probabilities, after src/stats/probs/mod.rs of the Rust crate bio 4.2.2, in its order and by its names. A call takes values or
// lent slices and hands back an Answer. Where the Rust panics or gives NaN it refuses; a NaN is 7 at table 0, at its argument's number
// from 0 or its index in a slice. The sum itself is in sum, and what two numbers make in pair. Left out: operators, integration, cdf,
// log10 and powf.

#![tactic(auto)]

ghost use Rattle.std.specs.Prelude.{◌≡◌, ◌≤◌, length, position};
ghost use Rattle.std.specs.Float.Ieee.{is_nan};
ghost use Rattle.floats.specs.Float.{minus_infinity, at};
ghost use Rattle.lists.specs.Lists.{over};
ghost use Rattle.kernels.specs.Calls.{exp_answer, ln_answer, ln1m_answer};
ghost use Rattle.sums.specs.Pair.{ln_cumsum};
ghost use Rattle.probs.specs.Calls.{is_valid, checked_answer, cap_answer, ln_sum_exp_answer, ln_add_exp_answer, ln_sub_exp_answer};
ghost use Rattle.probs.specs.Calls.{Cumulated, cumsums, scaled_answer, log_to_phred, phred_to_log};

use answer::{Answer, Refusal, done, refused};
use floats::minus_infinity;
use sums::pair::{ln_add, ln_sub};
use sums::sum::ln_sum;

// A factor to convert log-probabilities to PHRED-scale: -10 * 1 / ln(10).
const LOG_TO_PHRED_FACTOR: f64 = -4.3429448190325175;

// A factor to convert PHRED-scale to log-probabilities: 1 / (-10 * log10(e)).
const PHRED_TO_LOG_FACTOR: f64 = -0.23025850929940456;

// A probability.
#[derive(Clone, Copy)]
pub struct Prob(pub f64);

impl Prob {
    // p itself, where it is from 0 to 1; else 7.
    #[tactic(auto, using(floats::proofs::Literals::nought_bits, std::proofs::lemmas::Float::one_f64_is), unfolding(crate::specs::Calls::checked_answer))]
    pub fn checked(p: f64) -> Answer
        ensures { result ≡ checked_answer p }
    {
        if 0.0 <= p && p <= 1.0 {
            return done(p);
        }
        refused(Refusal::NotGood, 0, 0)
    }
}

// A log-probability.
#[derive(Clone, Copy)]
pub struct LogProb(pub f64);

// A probability on the PHRED scale.
#[derive(Clone, Copy)]
pub struct PHREDProb(pub f64);

impl LogProb {
    // Whether it is not NaN and at most 0.
    pub fn is_valid(self) -> bool
        ensures { result ≡ is_valid self.0 }
    {
        self.0 <= 0.0
    }

    // Log-space representation of Pr=0: minus infinity.
    pub fn ln_zero() -> LogProb
        ensures { result.0 ≡ minus_infinity }
    {
        LogProb(minus_infinity())
    }

    // Log-space representation of Pr=1.
    pub const LN_ONE: LogProb = LogProb(0.0);

    // The value, or 0.0 where it is above 0 by no more than epsilon; 11 where it is by more, and where either is NaN.
    #[tactic(auto, using(crate::proofs::Overshoot::ways_out))]
    pub fn cap_numerical_overshoot(self, epsilon: f64) -> Answer
        ensures { result ≡ cap_answer self.0 epsilon }
    {
        if epsilon.is_nan() {
            return refused(Refusal::Overshoot, 0, 0);
        }
        if self.0 <= 0.0 {
            return done(self.0);
        }
        if self.0 - epsilon <= 0.0 {
            return done(LogProb::LN_ONE.0);
        }
        refused(Refusal::Overshoot, 0, 0)
    }

    // 1 - p in log-space: 7 where it is NaN or above 0.
    pub fn ln_one_minus_exp(self) -> Answer
        ensures { result ≡ ln1m_answer self.0 }
    {
        kernels::ln_1m_exp(self.0)
    }

    // The sum of probabilities in log-space: minus infinity where there are none; 7 at the first NaN. The slice is of f64, as C lends it.
    #[tactic(auto, using(crate::proofs::Nan::nan_or_not))]
    pub fn ln_sum_exp(probs: &[f64]) -> Answer
        ensures { result ≡ ln_sum_exp_answer probs.now }
    {
        if let Some(place) = first_nan(probs) {
            return refused(Refusal::NotGood, 0, place);
        }
        done(ln_sum(probs))
    }

    // The sum of two probabilities in log-space: 7 where one is NaN.
    #[tactic(auto, using(crate::proofs::Nan::nan_or_not))]
    pub fn ln_add_exp(self, other: LogProb) -> Answer
        ensures { result ≡ ln_add_exp_answer self.0 other.0 }
    {
        if let Some(place) = first_nan(&[self.0, other.0]) {
            return refused(Refusal::NotGood, 0, place);
        }
        done(ln_add(self.0, other.0))
    }

    // The difference of two probabilities in log-space: 7 where one is NaN, then 10 where the second is the greater.
    #[tactic(auto, using(crate::proofs::Nan::nan_or_not))]
    pub fn ln_sub_exp(self, other: LogProb) -> Answer
        ensures { result ≡ ln_sub_exp_answer self.0 other.0 }
    {
        if let Some(place) = first_nan(&[self.0, other.0]) {
            return refused(Refusal::NotGood, 0, place);
        }
        if self.0 < other.0 {
            return refused(Refusal::NegativeDifference, 0, 0);
        }
        done(ln_sub(self.0, other.0))
    }

    // The cumulative sums of probs, into the front of sums, output 5; the rest of sums stays. The value is the last sum, minus infinity
    // where there is none. Where sums is too short it is 6, then 7 at the first NaN, and nothing is written.
    #[tactic(auto, using(crate::proofs::Nan::nan_or_not), unfolding(crate::specs::Calls::ln_cumsum_exp_answer))]
    pub fn ln_cumsum_exp(probs: &[f64], sums: &mut [f64]) -> Answer
        ensures { Cumulated probs.now sums.old sums.new result }
    {
        if sums.len() < probs.len() {
            return refused(Refusal::OutputTooShort, 5, sums.len());
        }
        if let Some(place) = first_nan(probs) {
            return refused(Refusal::NotGood, 0, place);
        }
        done(LogProb::scan_ln_add_exp(probs, sums))
    }

    // The cumulative sums of probs, into the front of sums. The last one comes back.
    fn scan_ln_add_exp(probs: &[f64], sums: &mut [f64]) -> f64
        requires { length probs.now ≤ length sums.old }
        ensures value { result ≡ ln_cumsum (length probs.now) (at probs.now) }
        ensures sums_after { sums.new ≡ over 0 (cumsums probs.now) sums.old }
    {
        let mut sum = minus_infinity();
        for i in 0..probs.len() {
            sum = ln_add(sum, probs[i]);
            sums[i] = sum;
        }
        sum
    }
}

impl Prob {
    // The probability of a log-probability, by the kernel exp: 7 where it is NaN or above 0.
    pub fn from_log_prob(p: LogProb) -> Answer
        ensures { result ≡ exp_answer p.0 }
    {
        kernels::exp(p.0)
    }
}

impl LogProb {
    // The log-probability of a probability, by the kernel ln: 7 where it is NaN or below 0.
    pub fn from_prob(p: Prob) -> Answer
        ensures { result ≡ ln_answer p.0 }
    {
        kernels::ln(p.0)
    }

    // The log-probability of a PHRED-scaled probability: 7 where it is NaN.
    #[tactic(auto, using(crate::proofs::Factors::phred_to_log_lem))]
    pub fn from_phred_prob(p: PHREDProb) -> Answer
        ensures { result ≡ scaled_answer phred_to_log p.0 }
    {
        scaled(p.0, PHRED_TO_LOG_FACTOR)
    }
}

impl PHREDProb {
    // The PHRED-scaled probability of a log-probability: 7 where it is NaN.
    #[tactic(auto, using(crate::proofs::Factors::log_to_phred_lem))]
    pub fn from_log_prob(p: LogProb) -> Answer
        ensures { result ≡ scaled_answer log_to_phred p.0 }
    {
        scaled(p.0, LOG_TO_PHRED_FACTOR)
    }
}

// x times the factor: 7 where x is NaN.
#[tactic(auto, unfolding(crate::specs::Calls::scaled_answer))]
fn scaled(x: f64, factor: f64) -> Answer
    ensures { result ≡ scaled_answer factor x }
{
    if x.is_nan() {
        refused(Refusal::NotGood, 0, 0)
    } else {
        done(x * factor)
    }
}

// The first index of a NaN.
fn first_nan(xs: &[f64]) -> Option<usize>
    ensures { result ≡ position is_nan xs.now }
{
    xs.iter().position(|x| x.is_nan())
}
