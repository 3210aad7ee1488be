// The draw sheet: its header, its judging and its elements.
#![tactic(auto)]

mod bits;
pub mod header;
pub mod judge;
pub mod read;
