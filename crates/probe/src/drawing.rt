// The draw of indices, by value and in place: the sponge is lent as its sixteen words, and moves by the squeezes that were made.
ghost use Rattle.std.specs.Prelude.{◌≡◌, length};
ghost use Rattle.draws.specs.Answers.{counted, sample_indices, sampled_slice};
ghost use Rattle.probe.specs.Answers.{sponge_of};

use draws::{DrawError, in_place};
use refusals::Refusal;
use refusals::refusal::number;
use sponge::Tip5;

// The refusal's number is returned, and both counts go to their places: zeros where nothing was drawn.
fn hand_out_counts(
    answer: Result<u64, DrawError>,
    wanted: usize,
    found: &mut u64,
    squeezes: &mut u64,
) -> u32
    ensures { (result, (found.new, squeezes.new)) ≡ counted wanted answer }
{
    (*found, *squeezes) = match answer {
        Ok(made) => (wanted as u64, made),
        Err(DrawError::Refused(_)) => (0, 0),
        Err(DrawError::AllowanceSpent { found, squeezes }) => (found as u64, squeezes),
    };
    match answer {
        Ok(_) => 0,
        Err(error) => number(Err(Refusal::from(error))),
    }
}

#[unsafe(no_mangle)]
pub extern "C" fn probe_sample_indices(
    state: &mut [u64; 16],
    bound: u32,
    indices: &mut [u32],
    allowance: u64,
    found: &mut u64,
    squeezes: &mut u64,
) -> u32
    ensures counts { (result, (found.new, squeezes.new)) ≡ counted (length indices.old) (sample_indices (sponge_of state.old) bound allowance (length indices.old)).0 }
    ensures sponge { sponge_of state.new ≡ (sample_indices (sponge_of state.old) bound allowance (length indices.old)).1 }
    ensures slice { indices.new ≡ sampled_slice (sponge_of state.old) bound allowance indices.old }
{
    let (answer, next) = draws::sample_indices(Tip5 { state: *state }, bound, indices, allowance);
    let words = next.state;
    *state = words;
    hand_out_counts(answer, indices.len(), found, squeezes)
}

#[unsafe(no_mangle)]
pub extern "C" fn probe_sample_indices_in_place(
    state: &mut [u64; 16],
    bound: u32,
    indices: &mut [u32],
    allowance: u64,
    found: &mut u64,
    squeezes: &mut u64,
) -> u32
    ensures counts { (result, (found.new, squeezes.new)) ≡ counted (length indices.old) (sample_indices (sponge_of state.old) bound allowance (length indices.old)).0 }
    ensures sponge { sponge_of state.new ≡ (sample_indices (sponge_of state.old) bound allowance (length indices.old)).1 }
    ensures slice { indices.new ≡ sampled_slice (sponge_of state.old) bound allowance indices.old }
{
    let mut sponge = Tip5 { state: *state };
    let answer = in_place::sample_indices(&mut sponge, bound, indices, allowance);
    *state = sponge.state;
    hand_out_counts(answer, indices.len(), found, squeezes)
}
