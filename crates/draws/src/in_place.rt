// The draw in place: the caller's sponge moves by the squeezes that are made.
ghost use Rattle.std.specs.Prelude.{◌≡◌, length};
ghost use Rattle.draws.specs.Answers.{sample_indices, sampled_slice};

use crate::DrawError;
use crate::bound::Bound;
use crate::index::put_indices;
use refusals::judge::judge_words;
use sponge::Tip5;

/// Indices below a bound, a power of two from 1 to 2^31, until the slice is full or the allowance of squeezes is spent: how
/// many squeezes are made. `Refused(BadWord)`, then `Refused(BadBound)`: nothing is drawn. `AllowanceSpent` where indices are
/// missing after all squeezes: those found stand in front, and the sponge has moved by the whole allowance.
#[tactic(auto, using(refusals::proofs::JudgeLaws::below_accepted, crate::proofs::SqueezeLaws::ten_below, crate::proofs::DrawingLaws::drawing_room, crate::proofs::DrawingLaws::drawing_short))]
pub fn sample_indices(
    sponge: &mut Tip5,
    bound: u32,
    indices: &mut [u32],
    allowance: u64,
) -> Result<u64, DrawError>
    ensures answer { (result, sponge.new) ≡ sample_indices sponge.old bound allowance (length indices.old) }
    ensures slice { indices.new ≡ sampled_slice sponge.old bound allowance indices.old }
{
    judge_words(&sponge.state)?;
    let bound = Bound::judged(bound)?;
    let mut found = 0;
    let mut squeezes = 0;
    // Not `for squeezes in 0..allowance`: it would ask in two places whether the slice is full.
    while found < indices.len() {
        if squeezes == allowance {
            return Err(DrawError::AllowanceSpent { found, squeezes });
        }
        let ten = sponge.squeeze().unwrap();
        found += put_indices(&ten, bound, &mut indices[found..]);
        squeezes += 1;
    }
    Ok(squeezes)
}
