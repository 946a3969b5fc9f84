// The leaves on every edge value, on every pair of them and on every run of them, so that each rule of RULES 5 meets its border. The
// first lines give the values, each as its number and its bits. A line after them is a call, the numbers of its arguments, the number of
// its refusal, the table and place that it names, and the bits of its value. The file stdout beside src/ has what the rules make of each.

#![tactic(auto)]

use probs::{LogProb, PHREDProb, Prob};
use program_io::lines::{Bits, Shown};
use std::io;

// Both infinities, NaN, both zeros, the least number above 0, neighbours of 1 and of -1, and both sides of ln_1m_exp's border.
const VALUES: [f64; 16] = [
    -4.0,
    -4.000000000000001,
    -1.0,
    -1.0000000000000002,
    -1.0000000000000004,
    f64::NEG_INFINITY,
    -0.693,
    -0.694,
    -0.0,
    0.0,
    5e-324,
    2.220446049250313e-16,
    f64::NAN,
    1.0,
    1.0000000000000002,
    f64::INFINITY,
];

// The values, and then the two that the library gives by name.
fn values(rt: &impl Print) -> io::Result<()> {
    for (i, x) in VALUES.iter().enumerate() {
        println!(rt; "value {i} {}", Bits(*x))?;
    }
    println!(rt;
        " {} {}",
        Bits(LogProb::ln_zero().0),
        Bits(LogProb::LN_ONE.0)
    )
}

// The calls on one number, the i-th.
fn one(rt: &impl Print, i: usize, x: f64) -> io::Result<()> {
    let valid = if LogProb(x).is_valid() { "yes" } else { "no" };
    println!(rt; "is_valid {i} {valid}")?;
    println!(rt; "checked {i} {}", Shown(Prob::checked(x)))?;
    println!(rt;
        "ln_one_minus_exp {i} {}",
        Shown(LogProb(x).ln_one_minus_exp())
    )?;
    println!(rt;
        "Prob::from_log_prob {i} {}",
        Shown(Prob::from_log_prob(LogProb(x)))
    )?;
    println!(rt;
        "LogProb::from_prob {i} {}",
        Shown(LogProb::from_prob(Prob(x)))
    )?;
    println!(rt;
        "LogProb::from_phred_prob {i} {}",
        Shown(LogProb::from_phred_prob(PHREDProb(x)))
    )?;
    println!(rt;
        "PHREDProb::from_log_prob {i} {}",
        Shown(PHREDProb::from_log_prob(LogProb(x)))
    )
}

// The calls on each number alone.
fn ones(rt: &impl Print) -> io::Result<()> {
    for (i, x) in VALUES.iter().enumerate() {
        one(rt, i, *x)?;
    }
    Ok(())
}

// The calls on two numbers, the i-th and each.
fn pairs_with(rt: &impl Print, i: usize, x: f64) -> io::Result<()> {
    for (j, y) in VALUES.iter().enumerate() {
        println!(rt;
            "cap_numerical_overshoot {i} {j} {}",
            Shown(LogProb(x).cap_numerical_overshoot(*y))
        )?;
        println!(rt;
            "ln_add_exp {i} {j} {}",
            Shown(LogProb(x).ln_add_exp(LogProb(*y)))
        )?;
        println!(rt;
            "ln_sub_exp {i} {j} {}",
            Shown(LogProb(x).ln_sub_exp(LogProb(*y)))
        )?;
    }
    Ok(())
}

// The calls on each pair of numbers.
fn pairs(rt: &impl Print) -> io::Result<()> {
    for (i, x) in VALUES.iter().enumerate() {
        pairs_with(rt, i, *x)?;
    }
    Ok(())
}

// The calls on a run of numbers, from the a-th to the one before the b-th: an output of five places, all 7 before, is shown after.
fn run(rt: &impl Print, part: &[f64], a: usize, b: usize) -> io::Result<()> {
    let mut sums = [7.0; 5];
    println!(rt; "ln_sum_exp {a} {b} {}", Shown(LogProb::ln_sum_exp(part)))?;
    println!(rt;
        "ln_cumsum_exp {a} {b} {}",
        Shown(LogProb::ln_cumsum_exp(part, &mut sums))
    )?;
    for sum in sums {
        print!(rt; " {}", Bits(sum))?;
    }
    println!(rt)
}

// The calls on each run from the a-th number on.
fn runs_from(rt: &impl Print, a: usize) -> io::Result<()> {
    for b in a..=VALUES.len() {
        run(rt, &VALUES[a..b], a, b)?;
    }
    Ok(())
}

// The calls on each run of numbers.
fn runs(rt: &impl Print) -> io::Result<()> {
    for a in 0..VALUES.len() {
        runs_from(rt, a)?;
    }
    Ok(())
}

fn main(rt: HostRuntime) -> io::Result<()> {
    values(&rt)?;
    ones(&rt)?;
    pairs(&rt)?;
    runs(&rt)
}
