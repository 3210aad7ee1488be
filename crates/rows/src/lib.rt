// Rows of columns: the digests of all rows.
#![tactic(auto)]

pub mod hash_rows;
mod judge;
mod row;
mod table;
