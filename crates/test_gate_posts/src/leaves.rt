// The examples of the kernels and the leaves: K1, K2, S1 and S2.
use kernels::{exp, ln};
use probs::LogProb;
use program_io::lines::Shown;
use std::io;

// K1 and K2.
pub fn kernels(rt: &impl Print) -> io::Result<()> {
    println!(rt; "K1 exp(0): {}", Shown(exp(0.0)))?;
    println!(rt; "K1 exp(-inf): {}", Shown(exp(f64::NEG_INFINITY)))?;
    println!(rt; "K2 ln(1): {}", Shown(ln(1.0)))?;
    println!(rt; "K2 ln(2): {}", Shown(ln(2.0)))?;
    println!(rt; "K2 ln(0.5): {}", Shown(ln(0.5)))
}

// S1 and S2.
pub fn sums(rt: &impl Print) -> io::Result<()> {
    println!(rt;
        "S1: {}",
        Shown(LogProb::ln_sum_exp(&[f64::INFINITY, -1.0]))
    )?;
    println!(rt; "S2: {}", Shown(LogProb(-1.0).ln_sub_exp(LogProb(-1.0))))
}
