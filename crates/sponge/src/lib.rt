// The sponge over Tip5's permutation: absorb, squeeze, padding, digests and one step back, in place and by value.
#![tactic(auto)]

pub mod by_value;
pub mod digest;
pub mod in_place;
mod padding;
mod stated;
pub mod step_back;

ghost use Rattle.std.specs.Prelude.{◌≡◌};
ghost use Rattle.sponge.specs.Sponge.{start};

use tip5::b_field_element::BFieldElement;

/// How many words of a state an absorb overwrites and a squeeze hands out.
pub const RATE: usize = 10;

/// How many words a digest has.
pub const DIGEST_LENGTH: usize = 5;

/// The two modes of hashing, kept apart by their starts.
#[derive(Clone, Copy, Debug, PartialEq, Eq, Hash)]
pub enum Domain {
    /// Inputs of any length.
    VariableLength,
    /// Inputs of ten words.
    FixedLength,
}

/// A sponge: sixteen raw words. Any u64 may stand here: each call judges them.
#[derive(Clone, Copy, Debug, PartialEq, Eq, Hash)]
pub struct Tip5 {
    pub state: [u64; 16],
}

impl Tip5 {
    /// The start of a domain: all zero, or ONE in words 10 to 15.
    #[tactic(auto, unfolding(crate::specs::Sponge::start))]
    pub fn new(domain: Domain) -> Tip5
        ensures { result ≡ start domain }
    {
        let o = BFieldElement::ONE.0;
        match domain {
            Domain::VariableLength => Tip5 { state: [0; 16] },
            Domain::FixedLength => Tip5 {
                state: [0, 0, 0, 0, 0, 0, 0, 0, 0, 0, o, o, o, o, o, o],
            },
        }
    }

    /// The start for an input of any length.
    pub fn init() -> Tip5
        ensures { result ≡ start Domain.VariableLength }
    {
        Tip5::new(Domain::VariableLength)
    }
}
