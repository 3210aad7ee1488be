// The hash function Tip5: its field, its permutation and the way back.
#![tactic(auto)]

pub mod b_field_element;
mod element;
pub mod inverse;
mod inverse_layers;
mod layers;
pub mod permutation;
mod seventh_root;
mod stated;
mod tables;
