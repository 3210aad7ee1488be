// The entries of the tables of `rounds`, each table indexed in place.
ghost use Rattle.std.specs.Prelude.{◌≡◌, ◌<◌, get_or};
ghost use Rattle.rounds.specs.Constants.{inv_mds_column};
ghost use Rattle.rounds.specs.Field.{raw_of};
ghost use Rattle.rounds.specs.Inverse.{inv_lookup_byte};
ghost use Rattle.rounds.specs.Round.{constant, lookup_byte};

use crate::element::Element;
use rounds::{inverse_tables, tables};

pub(crate) fn lookup(byte: u8) -> u8
    ensures { result ≡ lookup_byte byte }
{
    tables::LOOKUP_TABLE[usize::from(byte)]
}

pub(crate) fn inv_lookup(byte: u8) -> u8
    ensures { result ≡ inv_lookup_byte byte }
{
    inverse_tables::INV_LOOKUP_TABLE[usize::from(byte)]
}

// What a round adds to word r. The five functions that take a round ask for one below 5, which a loop or `judge_round` gives
// them: a type for it would be made in both loops and after both judgings, to save one clause at each of the five.
pub(crate) fn constant(round: usize, r: usize) -> Element
    requires { (round < 5) × (r < 16) }
    ensures { result ≡ constant round r }
{
    Element(tables::ROUND_CONSTANTS[16 * round + r])
}

// Entry k of the first column of the inverse matrix.
pub(crate) fn inv_entry(k: usize) -> Element
    requires { k < 16 }
    ensures { result ≡ raw_of (get_or inv_mds_column k 0) }
{
    Element(inverse_tables::INV_MDS_MATRIX_FIRST_COLUMN[k])
}
