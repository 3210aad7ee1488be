// The sponge by value: each call answers the next sponge, as the call in place leaves it.
ghost use Rattle.std.specs.Prelude.{◌≡◌};
ghost use Rattle.sponge.specs.Answers.{absorb, pad_and_absorb_all, squeeze};

use crate::Tip5;
use refusals::Refusal;

/// Words 0 to 9 are overwritten by ten words, then the permutation. Refused as the call in place.
pub fn absorb(sponge: Tip5, ten: &[u64]) -> Result<Tip5, Refusal>
    ensures { result ≡ absorb sponge ten.now }
{
    let mut next = sponge;
    next.absorb(ten)?;
    Ok(next)
}

/// Words 0 to 9 as they were, then the permutation: the next sponge and the ten words. Refused as the call in place.
pub fn squeeze(sponge: Tip5) -> Result<(Tip5, [u64; 10]), Refusal>
    ensures { result ≡ squeeze sponge }
{
    let mut next = sponge;
    let ten = next.squeeze()?;
    Ok((next, ten))
}

/// Every ten of the padded input is absorbed. Refused as the call in place.
pub fn pad_and_absorb_all(sponge: Tip5, input: &[u64]) -> Result<Tip5, Refusal>
    ensures { result ≡ pad_and_absorb_all sponge input.now }
{
    let mut next = sponge;
    next.pad_and_absorb_all(input)?;
    Ok(next)
}
