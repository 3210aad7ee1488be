// The errors of a draw, and which refusal each is.
ghost use Rattle.std.specs.Prelude.{◌≡◌};
ghost use Rattle.draws.specs.declared.error.DrawError.TheVariants.{Refused};
ghost use Rattle.draws.specs.Error.{refusal_of};

use refusals::Refusal;
use std::error::Error;
use thiserror::Error;

/// Why a draw does not find all its indices.
#[derive(Clone, Copy, Debug, PartialEq, Eq, Hash, Error)]
pub enum DrawError {
    /// A bad word or a bad bound: nothing is drawn.
    #[error("{0}")]
    Refused(Refusal),
    /// Indices are missing after all the squeezes that were allowed: those that were found stand.
    #[error("the allowance of {squeezes} squeezes is spent, and {found} indices are found")]
    AllowanceSpent { found: usize, squeezes: u64 },
}

impl From<Refusal> for DrawError {
    ghost from_gives = { λ refusal error. error ≡ Refused refusal };

    fn from(refusal: Refusal) -> DrawError {
        Self::Refused(refusal)
    }
}

/// The refusal, without the counts.
impl From<DrawError> for Refusal {
    ghost from_gives = { λ error refusal. refusal ≡ refusal_of error };

    fn from(error: DrawError) -> Refusal {
        match error {
            DrawError::Refused(refusal) => refusal,
            DrawError::AllowanceSpent { .. } => Refusal::AllowanceSpent,
        }
    }
}
