// The sponge, the digests and one step back. A sponge is lent as its sixteen words, which a refused call leaves; a refused
// digest and the ten words of a refused squeeze are zeros.
ghost use Rattle.std.specs.Prelude.{◌≡◌, replicate};
ghost use Rattle.refusals.specs.Number.{handed};
ghost use Rattle.sponge.specs.Answers.{hash10, hash_pair, hash_varlen, pad_and_absorb_all, step_back};
ghost use Rattle.sponge.specs.Answers as Answers;
ghost use Rattle.sponge.specs.Sponge.{start};
ghost use Rattle.probe.specs.Answers.{sponge_of};

use crate::handing::{hand_out, hand_out_sponge};
use sponge::step_back::{StepKind, step_back};
use sponge::{Domain, Tip5, by_value};

#[unsafe(no_mangle)]
pub extern "C" fn probe_variable_length(state: &mut [u64; 16]) -> u32
    ensures { (result ≡ 0) × (sponge_of state.new ≡ start Domain.VariableLength) }
{
    let sponge = Tip5::init();
    let words = sponge.state;
    *state = words;
    0
}

#[unsafe(no_mangle)]
pub extern "C" fn probe_fixed_length(state: &mut [u64; 16]) -> u32
    ensures { (result ≡ 0) × (sponge_of state.new ≡ start Domain.FixedLength) }
{
    let sponge = Tip5::new(Domain::FixedLength);
    let words = sponge.state;
    *state = words;
    0
}

#[unsafe(no_mangle)]
pub extern "C" fn probe_absorb(state: &mut [u64; 16], ten: &[u64]) -> u32
    ensures { (result, sponge_of state.new) ≡ handed (Answers.absorb (sponge_of state.old) ten.now) (sponge_of state.old) }
{
    hand_out_sponge(by_value::absorb(Tip5 { state: *state }, ten), state)
}

#[unsafe(no_mangle)]
pub extern "C" fn probe_squeeze(state: &mut [u64; 16], ten: &mut [u64; 10]) -> u32
    ensures { (result, (sponge_of state.new, ten.new)) ≡ handed (Answers.squeeze (sponge_of state.old)) (sponge_of state.old, replicate 10 0) }
{
    let sponge = Tip5 { state: *state };
    let mut given = (sponge, [0; 10]);
    let refusal = hand_out(by_value::squeeze(sponge), &mut given);
    *state = given.0.state;
    *ten = given.1;
    refusal
}

#[unsafe(no_mangle)]
pub extern "C" fn probe_pad_and_absorb_all(state: &mut [u64; 16], input: &[u64]) -> u32
    ensures { (result, sponge_of state.new) ≡ handed (pad_and_absorb_all (sponge_of state.old) input.now) (sponge_of state.old) }
{
    hand_out_sponge(
        by_value::pad_and_absorb_all(Tip5 { state: *state }, input),
        state,
    )
}

#[unsafe(no_mangle)]
pub extern "C" fn probe_hash_10(ten: &[u64], digest: &mut [u64; 5]) -> u32
    ensures { (result, digest.new) ≡ handed (hash10 ten.now) (replicate 5 0) }
{
    *digest = [0; 5];
    hand_out(Tip5::hash_10(ten), digest)
}

#[unsafe(no_mangle)]
pub extern "C" fn probe_hash_pair(left: &[u64], right: &[u64], digest: &mut [u64; 5]) -> u32
    ensures { (result, digest.new) ≡ handed (hash_pair left.now right.now) (replicate 5 0) }
{
    *digest = [0; 5];
    hand_out(Tip5::hash_pair(left, right), digest)
}

#[unsafe(no_mangle)]
pub extern "C" fn probe_hash_varlen(input: &[u64], digest: &mut [u64; 5]) -> u32
    ensures { (result, digest.new) ≡ handed (hash_varlen input.now) (replicate 5 0) }
{
    *digest = [0; 5];
    hand_out(Tip5::hash_varlen(input), digest)
}

#[unsafe(no_mangle)]
pub extern "C" fn probe_squeeze_back(state: &mut [u64; 16], places: &[u64]) -> u32
    ensures { (result, sponge_of state.new) ≡ handed (step_back StepKind.Squeeze (sponge_of state.old) places.now) (sponge_of state.old) }
{
    hand_out_sponge(
        step_back(StepKind::Squeeze, Tip5 { state: *state }, places),
        state,
    )
}

#[unsafe(no_mangle)]
pub extern "C" fn probe_absorb_back(state: &mut [u64; 16], saved: &[u64]) -> u32
    ensures { (result, sponge_of state.new) ≡ handed (step_back StepKind.Absorb (sponge_of state.old) saved.now) (sponge_of state.old) }
{
    hand_out_sponge(
        step_back(StepKind::Absorb, Tip5 { state: *state }, saved),
        state,
    )
}
