// What the crates above ask of a single f64. The laws of f64 are in proofs/.

#![tactic(auto)]

ghost use Rattle.std.specs.Prelude.{◌≡◌};
ghost use Rattle.floats.specs.Float as Float;
ghost use Rattle.floats.specs.Float.{minus_infinity, is_number, is_minus_infinity, is_plus_infinity, is_infinite, is_plus_zero};

// Minus infinity.
#[tactic(auto, using(crate::proofs::Literals::minus_infinity_bits))]
pub fn minus_infinity() -> f64
    ensures { result ≡ minus_infinity }
{
    f64::NEG_INFINITY
}

// Whether x is not NaN.
pub fn is_number(x: f64) -> bool
    ensures { result ≡ is_number x }
{
    !x.is_nan()
}

// Whether x is minus infinity.
#[tactic(auto, using(crate::proofs::Literals::minus_infinity_bits))]
pub fn is_minus_infinity(x: f64) -> bool
    ensures { result ≡ is_minus_infinity x }
{
    x == f64::NEG_INFINITY
}

// Whether x is plus infinity.
#[tactic(auto, using(crate::proofs::Literals::plus_infinity_bits))]
pub fn is_plus_infinity(x: f64) -> bool
    ensures { result ≡ is_plus_infinity x }
{
    x == f64::INFINITY
}

// Whether x is either infinity.
#[tactic(auto, unfolding(crate::specs::Float::is_infinite))]
pub fn is_infinite(x: f64) -> bool
    ensures { result ≡ is_infinite x }
{
    is_minus_infinity(x) || is_plus_infinity(x)
}

// Whether x is +0.0, and not -0.0.
#[tactic(auto, unfolding(crate::specs::Float::is_plus_zero))]
pub fn is_plus_zero(x: f64) -> bool
    ensures { result ≡ is_plus_zero x }
{
    is_number(x) && x.to_bits() == 0
}

// |x|, but -0.0 stays as it is, which x.abs() would make 0.0.
#[tactic(auto, using(crate::proofs::Literals::nought_bits), unfolding(crate::specs::Float::magnitude))]
pub fn magnitude(x: f64) -> f64
    ensures { result ≡ Float.magnitude x }
{
    if x < 0.0 { -x } else { x }
}
