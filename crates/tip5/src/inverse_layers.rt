// The layers of a round undone. Its loops go by place, since a word's place says what is done to it.
ghost use Rattle.std.specs.Prelude.{◌≡◌, ◌%◌, ◌<◌};
ghost use Rattle.numbers.specs.Circulant.{row_sum};
ghost use Rattle.numbers.specs.Modulus.{P};
ghost use Rattle.rounds.specs.Constants.{inv_mds_column};
ghost use Rattle.rounds.specs.Inverse.{inv_lookup, inv_sbox_layer, subtract_constants};
ghost use Rattle.rounds.specs.Round.{circulant};

use crate::element::Element;
use crate::layers::bytewise;
use crate::seventh_root::seventh_roots;
use crate::tables;

// The round's constants subtracted.
pub(crate) fn subtract_constants(round: usize, words: [Element; 16]) -> [Element; 16]
    requires { round < 5 }
    ensures { result ≡ subtract_constants round words }
{
    let mut out = words;
    for r in 0..16 {
        out[r] = words[r] - tables::constant(round, r);
    }
    out
}

// Row r of the inverse matrix times the words.
fn inv_row(words: [Element; 16], r: usize) -> Element
    requires { r < 16 }
    ensures { result ≡ row_sum inv_mds_column words r % P }
{
    let mut sum = Element::ZERO;
    for c in 0..16 {
        sum = sum + tables::inv_entry((16 + r - c) % 16) * words[c];
    }
    sum
}

pub(crate) fn inv_mds_matrix_mul(words: [Element; 16]) -> [Element; 16]
    ensures { result ≡ circulant inv_mds_column words }
{
    let mut out = words;
    for r in 0..16 {
        out[r] = inv_row(words, r);
    }
    out
}

// Words 0 to 3.
fn inv_split_and_lookup(a: Element) -> Element
    ensures { result ≡ inv_lookup a }
{
    Element(bytewise(tables::inv_lookup, a.0))
}

#[tactic(auto, unfolding(rounds::specs::Inverse::inv_sbox_layer, rounds::specs::Inverse::inv_sbox, crate::specs::Powers::powers))]
pub(crate) fn inv_sbox_layer(s: [Element; 16]) -> [Element; 16]
    ensures { result ≡ inv_sbox_layer s }
{
    let [r4, r5, r6, r7] = seventh_roots([s[4], s[5], s[6], s[7]]);
    let [r8, r9, r10, r11] = seventh_roots([s[8], s[9], s[10], s[11]]);
    let [r12, r13, r14, r15] = seventh_roots([s[12], s[13], s[14], s[15]]);
    [
        inv_split_and_lookup(s[0]),
        inv_split_and_lookup(s[1]),
        inv_split_and_lookup(s[2]),
        inv_split_and_lookup(s[3]),
        r4,
        r5,
        r6,
        r7,
        r8,
        r9,
        r10,
        r11,
        r12,
        r13,
        r14,
        r15,
    ]
}
