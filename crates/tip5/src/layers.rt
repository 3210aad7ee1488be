// The layers of a fast round. Its loops go by place, since a word's place says what is done to it
// (`array::from_fn` over a captured array did not close).
ghost use Rattle.std.specs.Prelude.{◌≡◌, ◌+◌, ◌*◌, ◌/◌, ◌^◌, ◌<◌, ℕ};
ghost use Rattle.numbers.specs.Circulant.{row_sum};
ghost use Rattle.numbers.specs.Lists.{tab};
ghost use Rattle.matrix.specs.Column.{mds_column};
ghost use Rattle.rounds.specs.Field.{power};
ghost use Rattle.rounds.specs.Round.{add_constants, bytewise, lookup, sbox_layer};
ghost use Rattle.tip5.specs.Reduced.{reduced};

use crate::element::{Element, raw_words, sum};
use crate::tables;
use words::sum::overflowing_add;

// A word with each of its bytes looked up, by the one way's table or the other's.
pub(crate) fn bytewise<F: Fn(u8) -> u8>(look_up: F, word: u64) -> u64
    requires { F.IsAlwaysCallable look_up }
    ensures { (f : ℕ → ℕ) → ((byte answer : ℕ) → byte < 256 → F.post look_up byte answer → answer ≡ f byte)
        → result ≡ bytewise f word }
{
    let [b0, b1, b2, b3, b4, b5, b6, b7] = word.to_le_bytes();
    u64::from_le_bytes([
        look_up(b0),
        look_up(b1),
        look_up(b2),
        look_up(b3),
        look_up(b4),
        look_up(b5),
        look_up(b6),
        look_up(b7),
    ])
}

// Words 0 to 3.
fn split_and_lookup(a: Element) -> Element
    ensures { result ≡ lookup a }
{
    Element(bytewise(tables::lookup, a.0))
}

// Words 4 to 15.
fn seventh_power(a: Element) -> Element
    ensures { result ≡ power a 7 }
{
    let sq = a * a;
    let qu = sq * sq;
    a * sq * qu
}

pub(crate) fn sbox_layer(s: [Element; 16]) -> [Element; 16]
    ensures { result ≡ sbox_layer s }
{
    let mut out = s;
    for i in 0..4 {
        out[i] = split_and_lookup(s[i]);
    }
    for i in 4..16 {
        out[i] = seventh_power(s[i]);
    }
    out
}

// A row sum as one word: lo / 16 + hi * 2^28 is folded by 2^64 = 2^32 - 1, and the carry of that
// again. The word may be P or more.
#[tactic(auto, unfolding(crate::specs::Reduced::reduced, crate::specs::Reduced::folded))]
fn reduced_word(lo: u64, hi: u64) -> u64
    ensures { result ≡ reduced (lo / 16 + hi * 2 ^ 28) }
{
    let (low, carry) = overflowing_add(lo / 16, hi % 68719476736 * 268435456);
    let upper = hi / 68719476736 + u64::from(carry);
    let (folded, carry) = overflowing_add(low, upper * 4294967295);
    folded + u64::from(carry) * 4294967295
}

// The circulant matrix times a state, by the halves of its words: each answer is congruent to its
// row sum and may be P or more, which the constants mend.
pub(crate) fn mds_generated(s: [Element; 16]) -> [u64; 16]
    ensures { result ≡ tab 16 0 (λ i. reduced (row_sum mds_column s i)) }
{
    let words = raw_words(s);
    let lo = matrix::generated_function(words.map(|w| w % 4294967296));
    let hi = matrix::generated_function(words.map(|w| w / 4294967296));
    let mut out = lo;
    for i in 0..16 {
        out[i] = reduced_word(lo[i], hi[i]);
    }
    out
}

// The round's constants added to any words, with one subtraction of P where the sum reaches P.
pub(crate) fn add_constants(round: usize, words: [u64; 16]) -> [Element; 16]
    requires { round < 5 }
    ensures { result ≡ add_constants round words }
{
    let mut out = [Element::ZERO; 16];
    for r in 0..16 {
        out[r] = sum(words[r], tables::constant(round, r).0);
    }
    out
}
