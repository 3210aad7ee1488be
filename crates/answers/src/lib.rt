// What a sheet gives: a digest, a draw or a refusal, as one line.
#![tactic(auto)]

mod job;
pub mod sheet_line;
