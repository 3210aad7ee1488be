// The field calls. An element goes in as its raw word; what a call answers is written to the place
// that it is lent, or 0 where it is refused, and its refusal returned.
ghost use Rattle.std.specs.Prelude.{◌≡◌};
ghost use Rattle.refusals.specs.Number.{handed};
ghost use Rattle.rounds.specs.Field.{raw_of};
ghost use Rattle.tip5.specs.Element.{difference, element_of, from_raw, mod_pow, product, raw_word, sum};
ghost use Rattle.tip5.specs.Element.{value as value_given};
ghost use Rattle.probe.specs.Answers.{value_of_word};

use crate::handing::{hand_out, hand_out_element};
use tip5::b_field_element::{BFieldElement, Value};

#[unsafe(no_mangle)]
pub extern "C" fn probe_new(value: u64, raw: &mut u64) -> u32
    ensures { (result ≡ 0) × (element_of raw.new ≡ element_of (raw_of value)) }
{
    *raw = BFieldElement::new(Value(value)).0;
    0
}

#[unsafe(no_mangle)]
pub extern "C" fn probe_from_raw_u64(word: u64, raw: &mut u64) -> u32
    ensures { (result, element_of raw.new) ≡ handed (from_raw word) (element_of 0) }
{
    hand_out_element(BFieldElement::from_raw_u64(word), raw)
}

#[unsafe(no_mangle)]
pub extern "C" fn probe_raw_u64(raw: u64, word: &mut u64) -> u32
    ensures { (result, word.new) ≡ handed (raw_word (element_of raw)) 0 }
{
    *word = 0;
    hand_out(BFieldElement(raw).raw_u64(), word)
}

#[unsafe(no_mangle)]
pub extern "C" fn probe_value(raw: u64, value: &mut u64) -> u32
    ensures { (result, value_of_word value.new) ≡ handed (value_given (element_of raw)) (value_of_word 0) }
{
    let mut given = Value(0);
    let refusal = hand_out(BFieldElement(raw).value(), &mut given);
    *value = given.0;
    refusal
}

#[unsafe(no_mangle)]
pub extern "C" fn probe_add(a: u64, b: u64, raw: &mut u64) -> u32
    ensures { (result, element_of raw.new) ≡ handed (sum (element_of a) (element_of b)) (element_of 0) }
{
    hand_out_element(BFieldElement(a).add(BFieldElement(b)), raw)
}

#[unsafe(no_mangle)]
pub extern "C" fn probe_sub(a: u64, b: u64, raw: &mut u64) -> u32
    ensures { (result, element_of raw.new) ≡ handed (difference (element_of a) (element_of b)) (element_of 0) }
{
    hand_out_element(BFieldElement(a).sub(BFieldElement(b)), raw)
}

#[unsafe(no_mangle)]
pub extern "C" fn probe_mul(a: u64, b: u64, raw: &mut u64) -> u32
    ensures { (result, element_of raw.new) ≡ handed (product (element_of a) (element_of b)) (element_of 0) }
{
    hand_out_element(BFieldElement(a).mul(BFieldElement(b)), raw)
}

#[unsafe(no_mangle)]
pub extern "C" fn probe_mod_pow(a: u64, exponent: u64, raw: &mut u64) -> u32
    ensures { (result, element_of raw.new) ≡ handed (mod_pow (element_of a) exponent) (element_of 0) }
{
    hand_out_element(BFieldElement(a).mod_pow(exponent), raw)
}
