// The permutation by its fast rounds. Each public call judges its words before anything moves.
ghost use Rattle.std.specs.Prelude.{◌≡◌, ◌<◌};
ghost use Rattle.rounds.specs.Round.{permuted};
ghost use Rattle.rounds.specs.Round as Round;
ghost use Rattle.tip5.specs.Permutation.{one_round};
ghost use Rattle.tip5.specs.Permutation as Permutation;

use crate::element::{Element, judged, raw_words};
use crate::layers;
use refusals::Refusal;
use refusals::judge::judge_round;

fn one_round(round: usize, state: [Element; 16]) -> [Element; 16]
    requires { round < 5 }
    ensures { result ≡ Round.round round state }
{
    let s = layers::sbox_layer(state);
    let m = layers::mds_generated(s);
    layers::add_constants(round, m)
}

#[tactic(auto, unfolding(rounds::specs::Round::permuted, rounds::specs::Round::rounds))]
fn permuted(mut state: [Element; 16]) -> [Element; 16]
    ensures { result ≡ permuted state }
{
    for round in 0..5 {
        state = one_round(round, state);
    }
    state
}

/// The state after five rounds. `BadWord` where a word is P or more.
pub fn permutation(state: [u64; 16]) -> Result<[u64; 16], Refusal>
    ensures { result ≡ Permutation.permutation state }
{
    Ok(raw_words(permuted(judged(state)?)))
}

/// The state after one round. `NoSuchRound` for a round over 4, then `BadWord`.
pub fn round(round: usize, state: [u64; 16]) -> Result<[u64; 16], Refusal>
    ensures { result ≡ one_round round state }
{
    judge_round(round)?;
    Ok(raw_words(one_round(round, judged(state)?)))
}
