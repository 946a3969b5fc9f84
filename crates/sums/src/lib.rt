// Sums and differences of log-probabilities as bare f64, total: what the leaves answer where they do not refuse, and what forward, backward
// and a training pass add up with.

#![tactic(auto)]

pub mod pair;
pub mod sum;
