// The field of P = 2^64 - 2^32 + 1. An element of value v is held as the raw word v * 2^64 mod P.
// A raw word and a plain value have types of their own, so that neither can stand for the other.
ghost use Rattle.std.specs.Prelude.{◌≡◌};
ghost use Rattle.rounds.specs.Field.{raw_of};
ghost use Rattle.tip5.specs.Element.{element_of, from_raw, raw_word, value, sum, difference, product, mod_pow};

use crate::element::Element;
use refusals::Refusal;

/// A plain value. Any u64 may stand here.
#[derive(Clone, Copy, Debug, PartialEq, Eq, Hash)]
pub struct Value(pub u64);

/// An element by its raw word. Any u64 may stand here too: each call judges it.
#[derive(Clone, Copy, Debug, PartialEq, Eq, Hash)]
pub struct BFieldElement(pub u64);

impl BFieldElement {
    /// The modulus.
    pub const P: u64 = rounds::P;

    /// The element of value 0.
    pub const ZERO: BFieldElement = BFieldElement(0);

    /// The element of value 1.
    pub const ONE: BFieldElement = BFieldElement(4294967295);

    /// The element of a value, which is taken modulo P.
    pub fn new(value: Value) -> BFieldElement
        ensures { result ≡ element_of (raw_of value.0) }
    {
        Element::new(value.0).into()
    }

    /// The element whose raw word is given. `BadWord` where it is P or more.
    pub fn from_raw_u64(word: u64) -> Result<BFieldElement, Refusal>
        ensures { result ≡ from_raw word }
    {
        Ok(Element::try_from(BFieldElement(word))?.into())
    }

    /// The raw word of an element. `BadWord` where it is P or more.
    pub fn raw_u64(self) -> Result<u64, Refusal>
        ensures { result ≡ raw_word self }
    {
        let element = Element::try_from(self)?;
        Ok(element.0)
    }

    /// The value of an element, below P. `BadWord` where its word is P or more.
    pub fn value(self) -> Result<Value, Refusal>
        ensures { result ≡ value self }
    {
        Ok(Value(Element::try_from(self)?.value()))
    }

    /// The sum. `BadWord` where a word is P or more.
    pub fn add(self, rhs: BFieldElement) -> Result<BFieldElement, Refusal>
        ensures { result ≡ sum self rhs }
    {
        let sum = Element::try_from(self)? + Element::try_from(rhs)?;
        Ok(sum.into())
    }

    /// The difference. `BadWord` where a word is P or more.
    pub fn sub(self, rhs: BFieldElement) -> Result<BFieldElement, Refusal>
        ensures { result ≡ difference self rhs }
    {
        let difference = Element::try_from(self)? - Element::try_from(rhs)?;
        Ok(difference.into())
    }

    /// The product. `BadWord` where a word is P or more.
    pub fn mul(self, rhs: BFieldElement) -> Result<BFieldElement, Refusal>
        ensures { result ≡ product self rhs }
    {
        let product = Element::try_from(self)? * Element::try_from(rhs)?;
        Ok(product.into())
    }

    /// The element to the power of any exponent; to the power of 0 it is ONE. `BadWord` where its word is P or
    /// more.
    pub fn mod_pow(self, exponent: u64) -> Result<BFieldElement, Refusal>
        ensures { result ≡ mod_pow self exponent }
    {
        Ok(Element::try_from(self)?.mod_pow(exponent).into())
    }
}
