// Whole states: the permutation and the way back on a lent slice in place, and the trace. Everything
// here is made of the public calls of tip5.
#![tactic(auto)]

pub mod in_place;
pub mod trace;
