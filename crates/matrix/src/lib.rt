// The circulant matrix of the permutation, times 16, in wrapping words: a cyclic product of length
// sixteen that is cut into smaller ones. Node names are those of the Rust function.
#![tactic(auto)]

mod cyclic;
mod halves;
mod negacyclic;

ghost use Rattle.std.specs.Prelude.{◌≡◌, ◌*◌, ◌%◌, ◌^◌};
ghost use Rattle.numbers.specs.Lists.{tab};
ghost use Rattle.numbers.specs.Circulant.{row_sum};
ghost use Rattle.matrix.specs.Column.{mds_column};

use crate::cyclic::cyclic;
use crate::halves::{differences, sums};
use crate::negacyclic::{negacyclic_even, negacyclic_odd};

/// Sixteen times the circulant matrix times the input, modulo 2^64.
pub fn generated_function(input: [u64; 16]) -> [u64; 16]
    ensures { result ≡ tab 16 0 (λ i. (16 * row_sum mds_column input i) % 2 ^ 64) }
{
    let sums = sums(input);
    let differences = differences(input);
    let [
        node_152,
        node_154,
        node_156,
        node_158,
        node_153,
        node_155,
        node_157,
        node_159,
    ] = cyclic(sums);
    let [node_412, node_906, node_1237, node_1492] = negacyclic_even(differences);
    let [node_717, node_1086, node_1375, node_1657] = negacyclic_odd(differences);
    [
        node_152.wrapping_add(node_412),
        node_154.wrapping_add(node_717),
        node_156.wrapping_add(node_906),
        node_158.wrapping_add(node_1086),
        node_153.wrapping_add(node_1237),
        node_155.wrapping_add(node_1375),
        node_157.wrapping_add(node_1492),
        node_159.wrapping_add(node_1657),
        node_152.wrapping_sub(node_412),
        node_154.wrapping_sub(node_717),
        node_156.wrapping_sub(node_906),
        node_158.wrapping_sub(node_1086),
        node_153.wrapping_sub(node_1237),
        node_155.wrapping_sub(node_1375),
        node_157.wrapping_sub(node_1492),
        node_159.wrapping_sub(node_1657),
    ]
}
