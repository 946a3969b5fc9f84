// The kernels exp, ln and ln(1 - exp(p)): each is an exact definition of specs/, bit for bit. The calls `exp`, `ln` and `ln_1m_exp` refuse
// what is outside their domain; `exp_of`, `ln_of` and `ln_1m_of`, for the crates above, give the bare value, defined for every argument.

#![tactic(auto)]

mod heads;

ghost use Rattle.std.specs.Prelude.{◌≡◌, ◌-◌, ◌^◌, ◌%◌, ◌≤◌, ◌<◌, take, drop, pos, ◌-ℤ◌, T};
ghost use Rattle.std.specs.Float.{binary64};
ghost use Rattle.std.specs.Float.Ieee.{of_bits, size, in_float};
ghost use Rattle.floats.specs.Float.{one};
ghost use Rattle.kernels.specs.Binary.{units_of, dyadic};
ghost use Rattle.kernels.specs.inner.Pattern.{field_of, digits_of, place_of};
ghost use Rattle.kernels.specs.Roots.{constants};
ghost use Rattle.kernels.specs.Exp as Exp;
ghost use Rattle.kernels.specs.Exp.{step, steps, exp_of};
ghost use Rattle.kernels.specs.Ln.{log_bits, joined, ln_fixed, ln_of};
ghost use Rattle.kernels.specs.Ln1m as Ln1m;
ghost use Rattle.kernels.specs.Ln1m.{ln1m_of};
ghost use Rattle.kernels.specs.Calls.{exp_answer, ln_answer, ln1m_answer};

use answer::{Answer, Refusal, done, refused};
use floats::minus_infinity;
use heads::head;

// The whole square root of 2^61, then each the whole square root of the one before times 2^31.
static ROOTS: [u64; 30] = [
    1518500249, 1805811300, 1969251187, 2056437386, 2101467501, 2124350982, 2135885998, 2141676972,
    2144578344, 2146030504, 2146756953, 2147120269, 2147301950, 2147392797, 2147438222, 2147460934,
    2147472290, 2147477968, 2147480807, 2147482227, 2147482937, 2147483292, 2147483469, 2147483558,
    2147483602, 2147483624, 2147483635, 2147483641, 2147483644, 2147483645,
];

// The digits of an f64's bits, sign clear: the fraction's field with the leading one, which a subnormal lacks.
fn digits(bits: u64) -> u64
    ensures { result ≡ digits_of bits }
{
    let fraction = bits & 0xf_ffff_ffff_ffff;
    if bits >> 52 == 0 {
        fraction
    } else {
        fraction | 0x10_0000_0000_0000
    }
}

// The place of those digits, in binary digits from 2^-1074 up.
fn place(bits: u64) -> u64
    ensures { result ≡ place_of bits }
{
    (bits >> 52).saturating_sub(1)
}

// One step of exp, for the lowest bit of g: a·c / 2^31 where it is set, else a, with no branch.
fn stepped(a: u64, c: u64, g: u64) -> u64
    requires { (a ≤ 2 ^ 31) × (c < 2 ^ 31) }
    ensures { (result ≡ step c (g % 2) a) × (result ≤ 2 ^ 31) }
{
    let bit = g & 1;
    (a * (c * bit + 0x8000_0000 * (1 - bit))) >> 31
}

// The steps of exp over the constants from place `from` up to `to`, for as many of the lowest bits of g, highest first. Where both places
// are known, as in all calls, the loop is compiled to straight code and the constants stand in it.
pub(crate) fn steps_over(a: u64, g: u64, from: usize, to: usize) -> u64
    requires { (a ≤ 2 ^ 31) × (from ≤ to) × (to ≤ 30) }
    ensures { (result ≡ steps (take (to - from) (drop from constants)) g a) × (result ≤ 2 ^ 31) }
{
    let mut r = a;
    for i in from..to {
        r = stepped(r, ROOTS[i], g >> (to - 1 - i));
    }
    r
}

// 2^31 times 2^-(g / 2^30), for the thirty lowest bits of g: seven steps looked up, then the others.
fn power(g: u64) -> u64
    ensures { (result ≡ Exp.power g) × (result ≤ 2 ^ 31) }
{
    steps_over(head(g >> 23), g, 7, 30)
}

// a·2^-k, exactly.
fn scaled(a: u64, k: u64) -> f64
    requires { (a ≤ 2 ^ 53) × (k ≤ 1000) }
    ensures { result ≡ dyadic (pos a) k }
{
    (a as f64) * f64::from_bits((1023 - k) << 52)
}

// floor(y·2^30) of the y below 64 with these bits, sign clear: the digits, shifted to their place.
fn floor30(bits: u64) -> u64
    requires { field_of bits ≤ 1028 }
    ensures { (result ≡ Exp.floor30 (of_bits binary64 bits)) × (result < 2 ^ 36) }
{
    let field = bits >> 52;
    let q = digits(bits);
    if field < 993 { 0 } else { q >> (1045 - field) }
}

// How far d is below 0: |d| for d at most 0, and 0 for any other d.
fn depth(d: f64) -> f64
    ensures { result ≡ Exp.depth d }
{
    if d < 0.0 { -d } else { 0.0 }
}

// exp(d) for d at most 0, from 0 to 1; 1 for any other d.
pub fn exp_of(d: f64) -> f64
    ensures { result ≡ exp_of d }
{
    let y = depth(d) * 1.4426950408889634;
    if y >= 62.0 {
        return 0.0;
    }
    let fixed = floor30(y.to_bits());
    scaled(power(fixed & 0x3fff_ffff), 31 + (fixed >> 30))
}

// exp(d): refused where d is a NaN or above 0.
pub fn exp(d: f64) -> Answer
    ensures { result ≡ exp_answer d }
{
    if d <= 0.0 {
        done(exp_of(d))
    } else {
        refused(Refusal::NotGood, 0, 0)
    }
}

// How many binary digits q has.
fn size_of(q: u64) -> u64
    requires { 0 < q }
    ensures { (result ≡ size q) × (0 < result) }
{
    64 - u64::from(q.leading_zeros())
}

// The thirty bits of the logarithm to base 2 of m / 2^31.
fn log_bits(m: u64) -> u64
    requires { m < 2 ^ 32 }
    ensures { (result ≡ log_bits 30 m 0) × (result < 2 ^ 30) }
{
    let mut a = m;
    let mut f: u64 = 0;
    for _ in 0..30u32 {
        let b = (a * a) >> 31;
        if b >= 0x1_0000_0000 {
            a = b >> 1;
            f = f * 2 + 1;
        } else {
            a = b;
            f *= 2;
        }
    }
    f
}

// e·2^30 + f, for the exponent e = size - 1075, from -1074 up: an f64 holds it.
fn join(size: u64, f: u64) -> i64
    requires { (size ≤ 2098) × (f < 2 ^ 30) }
    ensures { (result ≡ joined (pos size -ℤ pos 1075) f) × T (in_float binary64 result) }
{
    let e = (size as i64) - 1075;
    e * 1073741824 + (f as i64)
}

// e·2^30 + F of the x above 0 with these bits.
fn ln_fixed(bits: u64) -> i64
    requires { (0 < bits) × (field_of bits < 2047) }
    ensures { (result ≡ ln_fixed (units_of (of_bits binary64 bits))) × T (in_float binary64 result) }
{
    let q = digits(bits);
    let k = size_of(q);
    let f = log_bits((q << (64 - k)) >> 32);
    join(place(bits) + k, f)
}

// ln(x) for x at least 0, minus infinity at either zero; minus infinity for any other x.
pub fn ln_of(x: f64) -> f64
    ensures { result ≡ ln_of x }
{
    if 0.0 < x {
        if x == f64::INFINITY {
            return x;
        }
        let n = ln_fixed(x.to_bits());
        (n as f64) * 9.313225746154785e-10 * 0.6931471805599453
    } else {
        minus_infinity()
    }
}

// ln(x): refused where x is a NaN or below 0.
pub fn ln(x: f64) -> Answer
    ensures { result ≡ ln_answer x }
{
    if 0.0 <= x {
        done(ln_of(x))
    } else {
        refused(Refusal::NotGood, 0, 0)
    }
}

// 1 - q/2 + q·q/6 - .., from the inside.
fn horner(q: f64) -> f64
    ensures { result ≡ Ln1m.horner 12 q one }
{
    let mut h: f64 = 1.0;
    for k in (2..=12u32).rev() {
        h = 1.0 - q / f64::from(k) * h;
    }
    h
}

// ln(1 - exp(p)) for p at most 0, minus infinity at either zero; minus infinity for any other p.
pub fn ln_1m_of(p: f64) -> f64
    ensures { result ≡ ln1m_of p }
{
    if p < -0.693 {
        return ln_of(1.0 - exp_of(p));
    }
    let q = depth(p);
    ln_of(q * horner(q))
}

// ln(1 - exp(p)): refused where p is a NaN or above 0.
pub fn ln_1m_exp(p: f64) -> Answer
    ensures { result ≡ ln1m_answer p }
{
    if p <= 0.0 {
        done(ln_1m_of(p))
    } else {
        refused(Refusal::NotGood, 0, 0)
    }
}
