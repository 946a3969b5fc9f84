// The best path through a model, for the calls above: the step from one row to the next, one row at its place, and the way back. A caller
// lends all memory and shows that it fits; nothing is checked here.

#![tactic(auto)]

pub mod back;
pub mod row;
pub mod step;
