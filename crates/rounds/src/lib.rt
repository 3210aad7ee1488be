// The tables of Tip5, as the code reads them, and the modulus of its field. What Tip5 is stands in specs/, and that the
// way back undoes it in proofs/.
#![tactic(auto)]

pub mod inverse_tables;
mod stated;
pub mod tables;

/// The modulus: 2^64 - 2^32 + 1.
pub const P: u64 = 18446744069414584321;
