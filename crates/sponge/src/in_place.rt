// The sponge in place, as the source has it. Each call judges all its words before anything moves, so a refused call leaves the
// sponge as it was.
ghost use Rattle.std.specs.Prelude.{◌≡◌, OnOk, length};
ghost use Rattle.rounds.specs.Field.{Below};
ghost use Rattle.refusals.specs.Judge.{granted, word_refusal};
ghost use Rattle.sponge.specs.Answers.{absorb, absorb_refusal, pad_and_absorb_all, pad_refusal, squeeze};
ghost use Rattle.sponge.specs.InPlace.{leaving, leaving_ten};
ghost use Rattle.sponge.specs.Sponge as Sponge;

use crate::padding::last_ten;
use crate::{RATE, Tip5};
use refusals::Refusal;
use refusals::judge::{judge_length, judge_words};
use tip5::permutation::permutation;

impl Tip5 {
    /// Words 0 to 9 are overwritten by ten words, then the permutation. `WrongLength` where they are not ten, then `BadWord`.
    #[tactic(auto, using(refusals::proofs::JudgeLaws::below_accepted, crate::proofs::SpongeLaws::overwrite_below), unfolding(crate::specs::Sponge::absorbed))]
    pub fn absorb(&mut self, ten: &[u64]) -> Result<(), Refusal>
        ensures { (result, self.new) ≡ leaving (absorb self.old ten.now) self.old }
    {
        self.judge_absorb(ten)?;
        self.overwrite(ten);
        self.permute()
    }

    /// Every ten of the padded input is absorbed. `BadWord` where a word of the sponge or of the input is P or more.
    #[tactic(auto, using(refusals::proofs::JudgeLaws::below_accepted, crate::proofs::SpongeLaws::overwrite_below, crate::proofs::TensLaws::begins, crate::proofs::TensLaws::goes_on, crate::proofs::TensLaws::ends, crate::proofs::TensLaws::ten_below, crate::proofs::TensLaws::last_below), unfolding(crate::specs::Sponge::absorbed))]
    pub fn pad_and_absorb_all(&mut self, input: &[u64]) -> Result<(), Refusal>
        ensures { (result, self.new) ≡ leaving (pad_and_absorb_all self.old input.now) self.old }
    {
        self.judge_input(input)?;
        let tens = input.chunks_exact(RATE);
        let rest = tens.remainder();
        for ten in tens {
            self.overwrite(ten);
            self.permute()?;
        }
        self.overwrite(&last_ten(rest));
        self.permute()
    }

    /// Words 0 to 9 as they were, then the permutation. `BadWord` where a word is P or more.
    #[tactic(auto, unfolding(crate::specs::Sponge::squeezed))]
    pub fn squeeze(&mut self) -> Result<[u64; 10], Refusal>
        ensures { (result, self.new) ≡ leaving_ten (squeeze self.old) self.old }
    {
        let ten = self.rate();
        self.permute()?;
        Ok(ten)
    }

    // A sponge and an input of any length.
    fn judge_input(&self, input: &[u64]) -> Result<(), Refusal>
        ensures value { result ≡ pad_refusal self.now input.now }
        ensures below { OnOk result (Below self.now.state × Below input.now) }
    {
        judge_words(&self.state)?;
        judge_words(input)
    }

    // A sponge and ten words.
    pub(crate) fn judge_absorb(&self, ten: &[u64]) -> Result<(), Refusal>
        ensures value { result ≡ absorb_refusal self.now ten.now }
        ensures ten { OnOk result (length ten.now ≡ 10) }
        ensures below { OnOk result (Below self.now.state × Below ten.now) }
    {
        judge_length(RATE, ten)?;
        self.judge_input(ten)
    }

    // One permutation, which judges the words.
    #[tactic(auto, unfolding(crate::specs::Sponge::permute))]
    fn permute(&mut self) -> Result<(), Refusal>
        ensures { (result, self.new) ≡ leaving (granted (word_refusal self.old.state) (Sponge.permute self.old)) self.old }
    {
        self.state = permutation(self.state)?;
        Ok(())
    }

    // Words 0 to 9.
    #[tactic(auto, unfolding(crate::specs::Sponge::rate))]
    fn rate(&self) -> [u64; 10]
        ensures { result ≡ Sponge.rate self.now }
    {
        *self.state.first_chunk::<RATE>().unwrap()
    }

    // Words 0 to 9 are overwritten.
    #[tactic(auto, unfolding(crate::specs::Sponge::overwrite))]
    pub(crate) fn overwrite(&mut self, ten: &[u64])
        requires { length ten.now ≡ 10 }
        ensures { self.new ≡ Sponge.overwrite ten.now self.old }
    {
        self.state[..RATE].copy_from_slice(ten);
    }
}
