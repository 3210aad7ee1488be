// The permutation and its inverse on 128 bytes: sixteen raw words, each lowest byte first. They
// answer 0 with the bytes changed in place, or the number of a refusal with every byte as it was.
// tip5_c_c hands both to C, and include/tip5.h says the same there.
#![tactic(auto)]

mod bytes;

ghost use Rattle.std.specs.Prelude.{◌≡◌, List, ℕ};
ghost use Rattle.rounds.specs.Inverse.{inv_permuted};
ghost use Rattle.rounds.specs.Round.{permuted};
ghost use Rattle.refusals.specs.Judge.{granted, word_refusal};
ghost use Rattle.refusals.specs.Number.{number};
ghost use Rattle.tip5_c.specs.Export.{after, bytes_refusal};

use crate::bytes::{put_words, words_of};
use refusals::Refusal;
use refusals::refusal::number;
use tip5::inverse::inv_permutation;
use tip5::permutation::permutation;

// The words of 128 bytes, moved in place by a call by value.
fn moved<F: FnOnce([u64; 16]) -> Result<[u64; 16], Refusal>>(
    state: &mut [u8],
    step: F,
) -> Result<(), Refusal>
    ghost words_after: { List ℕ → List ℕ }
    requires callable { F.IsAlwaysCallable step }
    requires by_value { (words : _) (answer : _) → F.post step words answer → answer ≡ granted (word_refusal words) (words_after words) }
    ensures value { result ≡ bytes_refusal state.old }
    ensures state_after { state.new ≡ after words_after state.old }
{
    let bytes = state.as_mut_array::<128>().ok_or(Refusal::WrongLength)?;
    let words = step(words_of(bytes))?;
    put_words(bytes, words);
    Ok(())
}

/// The permutation of 128 bytes in place. 0, or the number of `WrongLength` where there are not 128,
/// then of `BadWord`; refused bytes stay as they are.
pub fn tip5_permutation(state: &mut [u8]) -> u32
    ensures value { result ≡ number (bytes_refusal state.old) }
    ensures state_after { state.new ≡ after permuted state.old }
{
    number(moved(state, permutation))
}

/// The inverse permutation of 128 bytes in place, refused as `tip5_permutation` is.
pub fn tip5_inverse_permutation(state: &mut [u8]) -> u32
    ensures value { result ≡ number (bytes_refusal state.old) }
    ensures state_after { state.new ≡ after inv_permuted state.old }
{
    number(moved(state, inv_permutation))
}
