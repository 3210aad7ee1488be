// The way back: the inverse of the permutation and of a round.
ghost use Rattle.std.specs.Prelude.{◌≡◌};
ghost use Rattle.rounds.specs.Inverse.{inv_permuted, inv_round};
ghost use Rattle.refusals.specs.Judge.{unless};
ghost use Rattle.refusals.specs.Number.{number};
ghost use Rattle.states.specs.InPlace.{round_slice_refusal, slice_refusal};

use refusals::refusal::number;
use states::in_place;

#[unsafe(no_mangle)]
pub extern "C" fn probe_inv_permutation(state: &mut [u64]) -> u32
    ensures value { result ≡ number (slice_refusal state.old) }
    ensures state_after { state.new ≡ unless (slice_refusal state.old) (inv_permuted state.old) state.old }
{
    number(in_place::inv_permute(state))
}

#[unsafe(no_mangle)]
pub extern "C" fn probe_inv_round(round: usize, state: &mut [u64]) -> u32
    ensures value { result ≡ number (round_slice_refusal round state.old) }
    ensures state_after { state.new ≡ unless (round_slice_refusal round state.old) (inv_round round state.old) state.old }
{
    number(in_place::inv_permute_round(round, state))
}
