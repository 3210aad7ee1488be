// Why a call is refused. The numbers are those that C, the program's lines and the documents use; 0 stands for no refusal.
ghost use Rattle.std.specs.Prelude.{◌≡◌};
ghost use Rattle.refusals.specs.Number.{number, number_of};

use std::error::Error;
use thiserror::Error;

/// Why a call is refused.
#[derive(Clone, Copy, Debug, PartialEq, Eq, Hash, Error)]
pub enum Refusal {
    #[error("a raw word or a value is not below P")]
    BadWord = 1,
    #[error("a list does not have the length that it must have")]
    WrongLength = 2,
    #[error("the bound is no power of two from 1 to 2^31")]
    BadBound = 3,
    #[error("the sheet is shorter than its header, or not as long as its header says")]
    WrongSheetLength = 4,
    #[error("the sheet is of another version or job, or has too many elements")]
    BadHeader = 5,
    #[error("the allowance is spent, and indices are missing")]
    AllowanceSpent = 6,
    #[error("the columns, their width or a view do not fit the words")]
    WrongShape = 7,
    #[error("there is no such round: the rounds are 0 to 4")]
    NoSuchRound = 8,
}

impl From<Refusal> for u8 {
    ghost from_gives = { λ refusal n. n ≡ number_of refusal };

    fn from(refusal: Refusal) -> u8 {
        refusal as u8
    }
}

// A function and no From: neither Result nor u32 is a type of this crate.

/// What C is answered: the number of a refusal, 0 where nothing is refused.
pub fn number(judgement: Result<(), Refusal>) -> u32
    ensures { result ≡ number judgement }
{
    match judgement {
        Ok(()) => 0,
        Err(refusal) => u32::from(u8::from(refusal)),
    }
}
