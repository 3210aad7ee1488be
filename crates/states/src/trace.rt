// The trace: the state at entry and after each round.
ghost use Rattle.std.specs.Prelude.{◌≡◌};
ghost use Rattle.states.specs.Trace as Trace;

use refusals::Refusal;
use refusals::judge::judge_words;
use tip5::permutation::round;

/// The state at entry and after each round, one after another: six states of sixteen words. Refused
/// is `BadWord`.
#[tactic(auto, using(crate::proofs::TraceLaws::entered_all))]
pub fn trace(state: [u64; 16]) -> Result<[u64; 96], Refusal>
    ensures { result ≡ Trace.trace state }
{
    judge_words(&state)?;
    let mut states = [state; 6];
    for i in 0..5 {
        states[i + 1] = round(i, states[i])?;
    }
    Ok(*states.as_flattened().as_array::<96>().unwrap())
}
