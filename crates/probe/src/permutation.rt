// The permutation, a round, the trace and the matrix function behind them.
ghost use Rattle.std.specs.Prelude.{◌≡◌, ◌*◌, ◌%◌, ◌^◌, replicate};
ghost use Rattle.numbers.specs.Lists.{tab};
ghost use Rattle.numbers.specs.Circulant.{row_sum};
ghost use Rattle.matrix.specs.Column.{mds_column};
ghost use Rattle.rounds.specs.Round.{permuted};
ghost use Rattle.rounds.specs.Round as Round;
ghost use Rattle.refusals.specs.Judge.{unless};
ghost use Rattle.refusals.specs.Number.{handed, number};
ghost use Rattle.states.specs.InPlace.{round_slice_refusal, slice_refusal};
ghost use Rattle.states.specs.Trace as Trace;

use crate::handing::hand_out;
use refusals::refusal::number;
use states::{in_place, trace};

#[unsafe(no_mangle)]
pub extern "C" fn probe_permutation(state: &mut [u64]) -> u32
    ensures value { result ≡ number (slice_refusal state.old) }
    ensures state_after { state.new ≡ unless (slice_refusal state.old) (permuted state.old) state.old }
{
    number(in_place::permute(state))
}

#[unsafe(no_mangle)]
pub extern "C" fn probe_round(round: usize, state: &mut [u64]) -> u32
    ensures value { result ≡ number (round_slice_refusal round state.old) }
    ensures state_after { state.new ≡ unless (round_slice_refusal round state.old) (Round.round round state.old) state.old }
{
    number(in_place::permute_round(round, state))
}

#[unsafe(no_mangle)]
pub extern "C" fn probe_trace(state: &[u64; 16], six: &mut [u64; 96]) -> u32
    ensures { (result, six.new) ≡ handed (Trace.trace state.now) (replicate 96 0) }
{
    *six = [0; 96];
    hand_out(trace::trace(*state), six)
}

#[unsafe(no_mangle)]
pub extern "C" fn probe_generated_function(words: &mut [u64; 16]) -> u32
    ensures { (result ≡ 0) × (words.new ≡ tab 16 0 (λ i. (16 * row_sum mds_column words.old i) % 2 ^ 64)) }
{
    *words = matrix::generated_function(*words);
    0
}
