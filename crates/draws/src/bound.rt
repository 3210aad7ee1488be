// The bound of a draw.
ghost use Rattle.std.specs.Prelude.{◌≡◌};
ghost use Rattle.refusals.specs.Judge.{granted};
ghost use Rattle.draws.specs.Bound.{bound_refusal};
ghost use Rattle.draws.specs.Draw.{index_of};

use refusals::Refusal;
use std::marker::Model;
use tip5::b_field_element::Value;

// A bound that was judged: an index below it can be had. In clauses it is its number.
// Nothing compares or prints it.
#[derive(Clone, Copy)]
pub(crate) struct Bound(u32);

impl Model for Bound {
    ghost use Rattle.std.specs.Prelude.{ℕ, ◌<◌};

    ghost Value = { ℕ };

    ghost view = { λ b. b.0 };

    ghost invariant = { λ b. 0 < b.0 };

    ghost inverse = { λ n. record { 0 = n } };
}

impl Bound {
    // `BadBound` where the bound is no power of two from 1 to 2^31.
    #[tactic(auto, using(crate::proofs::BoundLaws::power_accepted, crate::proofs::BoundLaws::other_refused, crate::proofs::BoundLaws::power_positive))]
    pub(crate) fn judged(bound: u32) -> Result<Bound, Refusal>
        ensures { result ≡ granted (bound_refusal bound) bound }
    {
        if bound.is_power_of_two() {
            Ok(Bound(bound))
        } else {
            Err(Refusal::BadBound)
        }
    }

    // The index of a value: its low 32 bits, modulo the bound.
    #[tactic(auto, unfolding(crate::specs::Draw::index_of))]
    pub(crate) fn index_of(self, value: Value) -> u32
        ensures { result ≡ index_of self value.0 }
    {
        (value.0 % 4294967296) as u32 % self.0
    }
}
