// One step back: what an accepted squeeze or absorb did to a sponge is undone. A history is walked back by such calls in
// turn, last step first.
ghost use Rattle.std.specs.Prelude.{◌≡◌};
ghost use Rattle.refusals.specs.Judge.{granted, word_refusal};
ghost use Rattle.sponge.specs.Answers.{step_back};
ghost use Rattle.sponge.specs.InPlace.{leaving};
ghost use Rattle.sponge.specs.Sponge as Sponge;

use crate::{RATE, Tip5};
use refusals::Refusal;
use refusals::judge::judge_length;
use tip5::inverse::inv_permutation;

/// The two kinds of steps: there is no third. The ten words stand beside both, since a call refuses another length beside a
/// squeeze too.
#[derive(Clone, Copy, Debug, PartialEq, Eq, Hash)]
pub enum StepKind {
    Squeeze,
    Absorb,
}

impl Tip5 {
    /// One step back. Beside an absorb the ten words are those that it overwrote, put back as given; beside a squeeze any ten
    /// stand there, and are not judged. `WrongLength` where they are not ten, then `BadWord`.
    #[tactic(auto, using(refusals::proofs::JudgeLaws::below_accepted), unfolding(crate::specs::Sponge::unsqueezed, crate::specs::Sponge::unabsorbed))]
    pub fn step_back(&mut self, kind: StepKind, ten: &[u64]) -> Result<(), Refusal>
        ensures { (result, self.new) ≡ leaving (step_back kind self.old ten.now) self.old }
    {
        match kind {
            StepKind::Squeeze => {
                judge_length(RATE, ten)?;
                self.unpermute()
            }
            StepKind::Absorb => {
                self.judge_absorb(ten)?;
                self.unpermute()?;
                self.overwrite(ten);
                Ok(())
            }
        }
    }

    // One permutation undone, which judges the words.
    #[tactic(auto, unfolding(crate::specs::Sponge::unpermute))]
    fn unpermute(&mut self) -> Result<(), Refusal>
        ensures { (result, self.new) ≡ leaving (granted (word_refusal self.old.state) (Sponge.unpermute self.old)) self.old }
    {
        self.state = inv_permutation(self.state)?;
        Ok(())
    }
}

/// The sponge before the step, as the call in place leaves it. Refused as that is.
pub fn step_back(kind: StepKind, sponge: Tip5, ten: &[u64]) -> Result<Tip5, Refusal>
    ensures { result ≡ step_back kind sponge ten.now }
{
    let mut before = sponge;
    before.step_back(kind, ten)?;
    Ok(before)
}
