// What the programs share: words from standard input, and lines on standard output.

#![tactic(auto)]

pub mod lines;
pub mod words;
