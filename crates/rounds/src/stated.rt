// What the public constants are. Nothing calls these functions: a constant has no contract, so each function says by its
// own what one constant is, a table entry by entry.
ghost use Rattle.std.specs.Prelude.{◌≡◌};
ghost use Rattle.numbers.specs.Modulus as Modulus;
ghost use Rattle.rounds.specs.InverseTables.{inv_lookup_table, raw_inv_column};
ghost use Rattle.rounds.specs.Tables.{lookup_table, raw_constants};

use crate::{P, inverse_tables, tables};

fn p_is() -> u64
    ensures { result ≡ Modulus.P }
{
    P
}

fn lookup_table_is() -> [u8; 256]
    ensures { result ≡ lookup_table }
{
    tables::LOOKUP_TABLE
}

fn round_constants_are() -> [u64; 80]
    ensures { result ≡ raw_constants }
{
    tables::ROUND_CONSTANTS
}

fn inv_lookup_table_is() -> [u8; 256]
    ensures { result ≡ inv_lookup_table }
{
    inverse_tables::INV_LOOKUP_TABLE
}

fn inv_column_is() -> [u64; 16]
    ensures { result ≡ raw_inv_column }
{
    inverse_tables::INV_MDS_MATRIX_FIRST_COLUMN
}
