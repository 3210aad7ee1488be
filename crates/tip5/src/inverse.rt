// The way back: the inverse of each round and of the permutation. Each public call judges its words
// before anything moves.
ghost use Rattle.std.specs.Prelude.{◌≡◌, ◌<◌};
ghost use Rattle.rounds.specs.Inverse.{inv_permuted, inv_round};
ghost use Rattle.tip5.specs.Permutation.{inv_one_round, inv_permutation};

use crate::element::{Element, judged, raw_words};
use crate::inverse_layers;
use refusals::Refusal;
use refusals::judge::judge_round;

#[tactic(auto, unfolding(rounds::specs::Inverse::inv_round))]
fn one_inv_round(round: usize, state: [Element; 16]) -> [Element; 16]
    requires { round < 5 }
    ensures { result ≡ inv_round round state }
{
    let s = inverse_layers::subtract_constants(round, state);
    let m = inverse_layers::inv_mds_matrix_mul(s);
    inverse_layers::inv_sbox_layer(m)
}

#[tactic(auto, unfolding(rounds::specs::Inverse::inv_permuted, rounds::specs::Inverse::inv_rounds))]
fn inv_permuted(mut state: [Element; 16]) -> [Element; 16]
    ensures { result ≡ inv_permuted state }
{
    for round in (0..5).rev() {
        state = one_inv_round(round, state);
    }
    state
}

// As in `permutation` a public call is two lines: a function over the way would be longer.

/// The state five rounds ago. `BadWord` where a word is P or more.
pub fn inv_permutation(state: [u64; 16]) -> Result<[u64; 16], Refusal>
    ensures { result ≡ inv_permutation state }
{
    Ok(raw_words(inv_permuted(judged(state)?)))
}

/// The state before one round. `NoSuchRound` for a round over 4, then `BadWord`.
pub fn inv_round(round: usize, state: [u64; 16]) -> Result<[u64; 16], Refusal>
    ensures { result ≡ inv_one_round round state }
{
    judge_round(round)?;
    Ok(raw_words(one_inv_round(round, judged(state)?)))
}
