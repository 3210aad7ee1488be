// The calls that the Rust side compares and measures, as C functions on numbers, slices and arrays:
// each a thin wrapper that promises, in the same words, what the wrapped call promises. It is there
// for tests and benchmarks and is no part of the product. C calls them by their names, so each call has
// one, also where two wrap the same.
#![tactic(auto)]

pub mod drawing;
pub mod field;
mod handing;
pub mod hashing;
pub mod in_place;
pub mod inverse;
pub mod permutation;
pub mod tables;
