// Judging words, lengths and rounds: each answers its refusal, and nothing where there is none.
ghost use Rattle.std.specs.Prelude.{◌≡◌, ◌↔◌, ◌<◌, IsTrue, OnOk, length};
ghost use Rattle.std.specs.List.{All};
ghost use Rattle.numbers.specs.Modulus.{P};
ghost use Rattle.rounds.specs.Field.{Below};
ghost use Rattle.refusals.specs.Judge.{length_refusal, round_refusal, word_refusal};

use crate::Refusal;
use rounds::P;

// Whether each word is below P.
fn are_below(words: &[u64]) -> bool
    ensures { IsTrue result ↔ All (λ w. w < P) words.now }
{
    words.iter().all(|&word| word < P)
}

/// `BadWord` where a word of the slice is P or more.
#[tactic(auto, using(crate::proofs::JudgeLaws::accepted_all, crate::proofs::JudgeLaws::refused_some))]
pub fn judge_words(words: &[u64]) -> Result<(), Refusal>
    ensures value { result ≡ word_refusal words.now }
    ensures below { OnOk result (Below words.now) }
{
    if are_below(words) {
        Ok(())
    } else {
        Err(Refusal::BadWord)
    }
}

/// `WrongLength` where there are not as many words as wanted.
pub fn judge_length(wanted: usize, words: &[u64]) -> Result<(), Refusal>
    ensures value { result ≡ length_refusal wanted words.now }
    ensures long { OnOk result (length words.now ≡ wanted) }
{
    if words.len() == wanted {
        Ok(())
    } else {
        Err(Refusal::WrongLength)
    }
}

/// `NoSuchRound` where there is no such round.
pub fn judge_round(round: usize) -> Result<(), Refusal>
    ensures { result ≡ round_refusal round }
{
    if round < 5 {
        Ok(())
    } else {
        Err(Refusal::NoSuchRound)
    }
}
