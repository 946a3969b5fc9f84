// The frozen list of rust/FROZEN.md: its calls, where the parts of a case lie, and how many cases differ.

#![tactic(auto)]

pub mod calls;
pub mod cases;
pub mod tally;
