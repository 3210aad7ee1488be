// The refusals: why a call is refused, each with its number, and the judging that comes before anything moves.
#![tactic(auto)]

pub mod judge;
pub mod refusal;

pub use refusal::Refusal;
