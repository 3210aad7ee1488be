// Handing an answer to C: its refusal's number is returned, 0 for none, and what it holds goes to a place. Where the call is
// refused the place stays as it was.
ghost use Rattle.std.specs.Prelude.{◌≡◌};
ghost use Rattle.refusals.specs.Number.{handed};
ghost use Rattle.probe.specs.Answers.{sponge_of};
ghost use Rattle.tip5.specs.Element.{element_of};

use refusals::Refusal;
use refusals::refusal::number;
use sponge::Tip5;
use tip5::b_field_element::BFieldElement;

pub(crate) fn hand_out<T: Copy>(answer: Result<T, Refusal>, place: &mut T) -> u32
    ensures { (result, place.new) ≡ handed answer place.old }
{
    match answer {
        Ok(given) => {
            *place = given;
            0
        }
        Err(refusal) => number(Err(refusal)),
    }
}

// An element as its raw word, 0 where the call is refused.
pub(crate) fn hand_out_element(answer: Result<BFieldElement, Refusal>, raw: &mut u64) -> u32
    ensures { (result, element_of raw.new) ≡ handed answer (element_of 0) }
{
    let mut element = BFieldElement::ZERO;
    let refusal = hand_out(answer, &mut element);
    *raw = element.0;
    refusal
}

// A sponge as its sixteen words.
pub(crate) fn hand_out_sponge(answer: Result<Tip5, Refusal>, state: &mut [u64; 16]) -> u32
    ensures { (result, sponge_of state.new) ≡ handed answer (sponge_of state.old) }
{
    let mut sponge = Tip5 { state: *state };
    let refusal = hand_out(answer, &mut sponge);
    *state = sponge.state;
    refusal
}
