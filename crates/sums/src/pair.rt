// ln_add_exp and ln_sub_exp of two bare f64, total: what the leaves answer where they do not refuse, and what a training pass calls.
ghost use Rattle.std.specs.Prelude.{◌≡◌};
ghost use Rattle.sums.specs.Pair as Pair;
ghost use Rattle.sums.specs.Pair.{ln_add_to, ln_add, is_near, relative_eq, ln_sub};

use floats::{is_infinite, is_minus_infinity, is_plus_infinity, magnitude, minus_infinity};
use kernels::{exp_of, ln_1m_of, ln_of};

// The sum of p0 and p1, p0 being the greater.
#[tactic(auto, unfolding(crate::specs::Pair::ln_add_to))]
fn ln_add_to(p0: f64, p1: f64) -> f64
    ensures { result ≡ ln_add_to p0 p1 }
{
    if is_infinite(p0) {
        return p0;
    }
    p0 + ln_of(1.0 + exp_of(p1 - p0))
}

// ln(exp(x) + exp(y)) of two numbers.
#[tactic(auto, unfolding(crate::specs::Pair::ln_add))]
pub fn ln_add(x: f64, y: f64) -> f64
    ensures { result ≡ ln_add x y }
{
    if is_minus_infinity(y) {
        return x;
    }
    if x < y {
        ln_add_to(y, x)
    } else {
        ln_add_to(x, y)
    }
}

// The greater of |x| and |y|.
#[tactic(auto, unfolding(crate::specs::Pair::larger))]
fn larger(x: f64, y: f64) -> f64
    ensures { result ≡ Pair.larger x y }
{
    let a = magnitude(x);
    let b = magnitude(y);
    if a < b { b } else { a }
}

// Whether two finite numbers are within 2^-52 of each other, or within 2^-52 of the larger magnitude.
fn is_near(p0: f64, p1: f64) -> bool
    ensures { result ≡ is_near p0 p1 }
{
    let distance = magnitude(p0 - p1);
    distance <= f64::EPSILON || distance <= f64::EPSILON * larger(p0, p1)
}

// Whether two numbers are close, as relative_eq! of the Rust crate approx has it.
#[tactic(auto, unfolding(crate::specs::Pair::relative_eq))]
fn relative_eq(p0: f64, p1: f64) -> bool
    ensures { result ≡ relative_eq p0 p1 }
{
    p0 == p1 || (!(is_infinite(p0) || is_infinite(p1)) && is_near(p0, p1))
}

// ln(exp(p0) - exp(p1)) of two numbers, p1 at most p0.
#[tactic(auto, unfolding(crate::specs::Pair::ln_sub))]
pub fn ln_sub(p0: f64, p1: f64) -> f64
    ensures { result ≡ ln_sub p0 p1 }
{
    if is_minus_infinity(p1) {
        return p0;
    }
    if relative_eq(p0, p1) {
        return minus_infinity();
    }
    if is_plus_infinity(p0) {
        return p0;
    }
    p0 + ln_1m_of(p1 - p0)
}
