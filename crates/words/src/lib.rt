// Plain machine words: the two halves of a product, a sum with its carry, a difference with its
// borrow. Every function takes every word.
#![tactic(auto)]

pub mod product;
pub mod sum;
