// What the public constants are. Nothing calls these functions: a constant has no contract, so each
// function says by its own what one constant is.
ghost use Rattle.std.specs.Prelude.{◌≡◌};
ghost use Rattle.numbers.specs.Modulus.{P};
ghost use Rattle.tip5.specs.Element.{element_of};

use crate::b_field_element::BFieldElement;

fn p_is() -> u64
    ensures { result ≡ P }
{
    BFieldElement::P
}

fn zero_is() -> BFieldElement
    ensures { result ≡ element_of 0 }
{
    BFieldElement::ZERO
}

fn one_is() -> BFieldElement
    ensures { result ≡ element_of 4294967295 }
{
    BFieldElement::ONE
}
