// The permutation, its rounds and the way back on a lent slice of sixteen words, in place. Each call
// judges the slice, and then the words, before anything moves.
ghost use Rattle.std.specs.Prelude.{◌≡◌};
ghost use Rattle.rounds.specs.Inverse.{inv_permuted};
ghost use Rattle.rounds.specs.Inverse as Inverse;
ghost use Rattle.rounds.specs.Round.{permuted};
ghost use Rattle.rounds.specs.Round as Round;
ghost use Rattle.refusals.specs.Judge.{unless};
ghost use Rattle.states.specs.InPlace.{round_slice_refusal, slice_refusal};

use refusals::Refusal;
use refusals::judge::judge_round;
use tip5::{inverse, permutation};

// Four bodies and no function over the call by value: its contract, by what that call may answer,
// would be longer than the two lines that the four share, and the rounds did not close over it.

/// The permutation of a lent slice in place. Refused are `WrongLength` where it is not sixteen words,
/// then `BadWord`; a refused slice stays as it is.
pub fn permute(state: &mut [u64]) -> Result<(), Refusal>
    ensures value { result ≡ slice_refusal state.old }
    ensures state_after { state.new ≡ unless (slice_refusal state.old) (permuted state.old) state.old }
{
    let words = state.as_mut_array::<16>().ok_or(Refusal::WrongLength)?;
    *words = permutation::permutation(*words)?;
    Ok(())
}

/// One round of a lent slice in place. Refused are `NoSuchRound` where the round is not 0 to 4, then
/// `WrongLength`, then `BadWord`; a refused slice stays as it is.
pub fn permute_round(round: usize, state: &mut [u64]) -> Result<(), Refusal>
    ensures value { result ≡ round_slice_refusal round state.old }
    ensures state_after { state.new ≡ unless (round_slice_refusal round state.old) (Round.round round state.old) state.old }
{
    judge_round(round)?;
    let words = state.as_mut_array::<16>().ok_or(Refusal::WrongLength)?;
    *words = permutation::round(round, *words)?;
    Ok(())
}

/// The inverse permutation of a lent slice in place, refused as `permute` is.
pub fn inv_permute(state: &mut [u64]) -> Result<(), Refusal>
    ensures value { result ≡ slice_refusal state.old }
    ensures state_after { state.new ≡ unless (slice_refusal state.old) (inv_permuted state.old) state.old }
{
    let words = state.as_mut_array::<16>().ok_or(Refusal::WrongLength)?;
    *words = inverse::inv_permutation(*words)?;
    Ok(())
}

/// One round undone in a lent slice, refused as `permute_round` is.
pub fn inv_permute_round(round: usize, state: &mut [u64]) -> Result<(), Refusal>
    ensures value { result ≡ round_slice_refusal round state.old }
    ensures state_after { state.new ≡ unless (round_slice_refusal round state.old) (Inverse.inv_round round state.old) state.old }
{
    judge_round(round)?;
    let words = state.as_mut_array::<16>().ok_or(Refusal::WrongLength)?;
    *words = inverse::inv_round(round, *words)?;
    Ok(())
}
