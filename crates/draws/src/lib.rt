// Draws: as many indices as a lent slice holds, out of a sponge's squeezed tens.
#![tactic(auto)]

mod bound;
pub mod error;
pub mod in_place;
mod index;

ghost use Rattle.std.specs.Prelude.{◌≡◌, length};
ghost use Rattle.draws.specs.Answers.{sample_indices, sampled_slice};

pub use error::DrawError;
use sponge::Tip5;

/// The draw by value: what the draw in place answers, and the next sponge as it leaves it.
pub fn sample_indices(
    sponge: Tip5,
    bound: u32,
    indices: &mut [u32],
    allowance: u64,
) -> (Result<u64, DrawError>, Tip5)
    ensures answer { result ≡ sample_indices sponge bound allowance (length indices.old) }
    ensures slice { indices.new ≡ sampled_slice sponge bound allowance indices.old }
{
    let mut next = sponge;
    let answer = in_place::sample_indices(&mut next, bound, indices, allowance);
    (answer, next)
}
