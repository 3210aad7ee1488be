// A raw word below P, and the field's operations on such words. Whatever makes an element proves the
// bound, so nothing is judged here: the public calls judge the words that they are given.
ghost use Rattle.std.specs.Prelude.{◌≡◌, ◌+◌, ◌-◌, ◌*◌, ◌%◌, ◌^◌, ◌<◌, ◌≤◌, [], ◌∷◌};
ghost use Rattle.numbers.specs.Modulus.{P};
ghost use Rattle.rounds.specs.Field.{raw_of, value_of};
ghost use Rattle.rounds.specs.Field as Field;
ghost use Rattle.refusals.specs.Judge.{granted, word_refusal};
ghost use Rattle.tip5.specs.Element.{element_of};

use crate::b_field_element::BFieldElement;
use refusals::Refusal;
use refusals::judge::judge_words;
use rounds::P;
use std::marker::Model;
use std::ops::{Add, Mul, Sub};

// 2^(-64) and 2^128 modulo P.
const R_INVERSE: u64 = 18446744065119617025;

const R2: u64 = 18446744065119617025;

// Nothing compares or prints it.
#[derive(Clone, Copy)]
pub(crate) struct Element(pub(crate) u64);

impl Model for Element {
    ghost use Rattle.std.specs.Prelude.{ℕ, ◌<◌};
    ghost use Rattle.numbers.specs.Modulus.{P};

    ghost Value = { ℕ };

    ghost view = { λ e. e.0 };

    ghost invariant = { λ e. e.0 < P };

    ghost inverse = { λ n. record { 0 = n } };
}

// a + b less P where the sum reaches P. The sum itself may not fit a word, and a may be P or more.
#[tactic(auto, unfolding(rounds::specs::Field::add))]
pub(crate) fn sum(a: u64, b: u64) -> Element
    requires { (b ≤ P) × (a + b < 2 * P) }
    ensures { result ≡ Field.add a b }
{
    let missing = P - b;
    if missing <= a {
        Element(a - missing)
    } else {
        Element(a + b)
    }
}

// Any word less a number below 2^32.
fn less(word: u64, h: u64) -> Element
    requires { h < 2 ^ 32 }
    ensures { result ≡ (word + (P - h)) % P }
{
    if word < h {
        return Element(word + (P - h));
    }
    let difference = word - h;
    if difference < P {
        Element(difference)
    } else {
        Element(difference - P)
    }
}

// What is congruent to upper * 2^64 + lower. With upper = h1 * 2^32 + h0 it folds by 2^96 = -1 and
// 2^64 = 2^32 - 1, modulo P, to lower - h1 + h0 * (2^32 - 1).
#[tactic(auto, unfolding(rounds::specs::Field::add))]
fn folded(upper: u64, lower: u64) -> Element
    ensures { result ≡ (upper * 2 ^ 64 + lower) % P }
{
    let h1 = upper / 4294967296;
    let h0 = upper % 4294967296;
    sum(less(lower, h1).0, h0 * 4294967295)
}

// The raw word of the product of any two words, a * b * 2^(-64): the product is folded, and so is
// its product with the number that stands for 2^(-64).
#[tactic(auto, unfolding(rounds::specs::Field::mul))]
fn product(a: u64, b: u64) -> Element
    ensures { result ≡ Field.mul a b }
{
    let t = folded(
        words::product::upper_product(a, b),
        words::product::wrapping_mul(a, b),
    );
    folded(
        words::product::upper_product(t.0, R_INVERSE),
        words::product::wrapping_mul(t.0, R_INVERSE),
    )
}

impl Add for Element {
    type Output = Element;

    ghost add_gives = { λ a b sum. sum ≡ Field.add a b };

    fn add(self, rhs: Element) -> Element {
        sum(self.0, rhs.0)
    }
}

impl Sub for Element {
    type Output = Element;

    ghost sub_gives = { λ a b difference. difference ≡ Field.sub a b };

    // P more where the difference would be below 0.
    #[tactic(auto, unfolding(rounds::specs::Field::sub))]
    fn sub(self, rhs: Element) -> Element {
        let a = self.0;
        let b = rhs.0;
        if b <= a {
            Element(a - b)
        } else {
            Element(a + (P - b))
        }
    }
}

impl Mul for Element {
    type Output = Element;

    ghost mul_gives = { λ a b product. product ≡ Field.mul a b };

    fn mul(self, rhs: Element) -> Element {
        product(self.0, rhs.0)
    }
}

// A word of P or more is refused.
impl TryFrom<BFieldElement> for Element {
    type Error = Refusal;

    ghost try_from_gives = { λ a judged. judged ≡ granted (word_refusal (a.0 ∷ [])) a.0 };

    fn try_from(a: BFieldElement) -> Result<Element, Refusal> {
        judge_words(&[a.0])?;
        Ok(Element(a.0))
    }
}

impl From<Element> for BFieldElement {
    ghost from_gives = { λ a element. element ≡ element_of a };

    fn from(a: Element) -> BFieldElement {
        BFieldElement(a.0)
    }
}

impl Element {
    pub(crate) const ZERO: Element = Element(0);

    pub(crate) const ONE: Element = Element(4294967295);

    // The element of any value.
    #[tactic(auto, unfolding(rounds::specs::Field::mul, rounds::specs::Field::raw_of))]
    pub(crate) fn new(value: u64) -> Element
        ensures { result ≡ raw_of value }
    {
        product(value, R2)
    }

    #[tactic(auto, unfolding(rounds::specs::Field::mul, rounds::specs::Field::value_of))]
    pub(crate) fn value(self) -> u64
        ensures { result ≡ value_of self }
    {
        product(self.0, 1).0
    }

    // The element to the power of any exponent, by squaring: at each turn the answer is found times
    // square to the power of what is left.
    pub(crate) fn mod_pow(self, exponent: u64) -> Element
        ensures { result ≡ Field.power self exponent }
    {
        let mut found = Element::ONE;
        let mut square = self;
        let mut left = exponent;
        // No index is counted: the exponent is halved until nothing is left of it.
        while 0 < left {
            if left % 2 == 1 {
                found = found * square;
            }
            square = square * square;
            left /= 2;
        }
        found
    }
}

// A state whose words are judged.
pub(crate) fn judged(words: [u64; 16]) -> Result<[Element; 16], Refusal>
    ensures { result ≡ granted (word_refusal words) words }
{
    judge_words(&words)?;
    let mut state = [Element::ZERO; 16];
    // By place: by `map` the bound of each word stays open.
    for i in 0..16 {
        state[i] = Element(words[i]);
    }
    Ok(state)
}

// The words of a state.
pub(crate) fn raw_words(state: [Element; 16]) -> [u64; 16]
    ensures { result ≡ state }
{
    state.map(|a| a.0)
}
