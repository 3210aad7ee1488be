// What the replay programs share: the count of what they compare. No part of the product.
#![tactic(auto)]

ghost use Rattle.std.specs.Prelude.{◌≡◌, ◌+◌, ◌-◌, ◌^◌, min, not};
ghost use Rattle.std.specs.Int.{from_bool};

/// How many answers were compared, and how many of them differ.
#[derive(Clone, Copy, Debug, Default, PartialEq, Eq, Hash)]
pub struct Tally {
    pub cases: u64,
    pub different: u64,
}

impl Tally {
    /// One answer more, which is the one that was stored or differs from it.
    pub fn note(&mut self, same: bool)
        ensures cases { self.new.cases ≡ min (self.old.cases + 1) (2 ^ 64 - 1) }
        ensures different { self.new.different ≡ min (self.old.different + from_bool (not same)) (2 ^ 64 - 1) }
    {
        self.cases = self.cases.saturating_add(1);
        self.different = self.different.saturating_add(u64::from(!same));
    }
}
