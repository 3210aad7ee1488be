// The calls that change a record in place. C lends sixteen words: a wrapper makes a record of them, lends that, and puts
// its words back, so each promises what its namesake by value does.
ghost use Rattle.std.specs.Prelude.{◌≡◌, replicate};
ghost use Rattle.refusals.specs.Number.{handed};
ghost use Rattle.sponge.specs.Answers.{absorb, pad_and_absorb_all, squeeze, step_back};
ghost use Rattle.probe.specs.Answers.{sponge_of};

use crate::handing::hand_out;
use refusals::refusal::number;
use sponge::Tip5;
use sponge::step_back::StepKind;

#[unsafe(no_mangle)]
pub extern "C" fn probe_absorb_in_place(state: &mut [u64; 16], ten: &[u64]) -> u32
    ensures { (result, sponge_of state.new) ≡ handed (absorb (sponge_of state.old) ten.now) (sponge_of state.old) }
{
    let mut sponge = Tip5 { state: *state };
    let answer = sponge.absorb(ten);
    *state = sponge.state;
    number(answer)
}

#[unsafe(no_mangle)]
pub extern "C" fn probe_pad_and_absorb_all_in_place(state: &mut [u64; 16], input: &[u64]) -> u32
    ensures { (result, sponge_of state.new) ≡ handed (pad_and_absorb_all (sponge_of state.old) input.now) (sponge_of state.old) }
{
    let mut sponge = Tip5 { state: *state };
    let answer = sponge.pad_and_absorb_all(input);
    *state = sponge.state;
    number(answer)
}

#[unsafe(no_mangle)]
pub extern "C" fn probe_squeeze_in_place(state: &mut [u64; 16], ten: &mut [u64; 10]) -> u32
    ensures { (result, (sponge_of state.new, ten.new)) ≡ handed (squeeze (sponge_of state.old)) (sponge_of state.old, replicate 10 0) }
{
    let mut sponge = Tip5 { state: *state };
    let answer = sponge.squeeze();
    *state = sponge.state;
    *ten = [0; 10];
    hand_out(answer, ten)
}

#[unsafe(no_mangle)]
pub extern "C" fn probe_squeeze_back_in_place(state: &mut [u64; 16], places: &[u64]) -> u32
    ensures { (result, sponge_of state.new) ≡ handed (step_back StepKind.Squeeze (sponge_of state.old) places.now) (sponge_of state.old) }
{
    stepped_back(StepKind::Squeeze, state, places)
}

#[unsafe(no_mangle)]
pub extern "C" fn probe_absorb_back_in_place(state: &mut [u64; 16], saved: &[u64]) -> u32
    ensures { (result, sponge_of state.new) ≡ handed (step_back StepKind.Absorb (sponge_of state.old) saved.now) (sponge_of state.old) }
{
    stepped_back(StepKind::Absorb, state, saved)
}

fn stepped_back(kind: StepKind, state: &mut [u64; 16], ten: &[u64]) -> u32
    ensures { (result, sponge_of state.new) ≡ handed (step_back kind (sponge_of state.old) ten.now) (sponge_of state.old) }
{
    let mut sponge = Tip5 { state: *state };
    let answer = sponge.step_back(kind, ten);
    *state = sponge.state;
    number(answer)
}
