// Padding: the last ten of an input.
ghost use Rattle.std.specs.Prelude.{◌≡◌, ◌<◌, length};
ghost use Rattle.sponge.specs.Padding.{last_ten};

use tip5::b_field_element::BFieldElement;

// The rest of an input, at most nine words, followed by ONE and zeros.
#[tactic(auto, unfolding(crate::specs::Padding::last_ten))]
pub(crate) fn last_ten(rest: &[u64]) -> [u64; 10]
    requires { length rest.now < 10 }
    ensures { result ≡ last_ten rest.now }
{
    let mut ten = [0; 10];
    ten[..rest.len()].copy_from_slice(rest);
    ten[rest.len()] = BFieldElement::ONE.0;
    ten
}
