// Digests: words 0 to 4 of a sponge.
ghost use Rattle.std.specs.Prelude.{◌≡◌, ◌++◌, length};
ghost use Rattle.sponge.specs.Answers.{hash10, hash_pair, hash_varlen};
ghost use Rattle.sponge.specs.Digest as Digest;

use crate::{DIGEST_LENGTH, Domain, Tip5};
use refusals::Refusal;
use refusals::judge::{judge_length, judge_words};

impl Tip5 {
    /// The digest of ten words. `WrongLength` where they are not ten, then `BadWord`.
    #[tactic(auto, using(crate::proofs::StartLaws::ten_judged), unfolding(crate::specs::Digest::digest_of_ten))]
    pub fn hash_10(input: &[u64]) -> Result<[u64; 5], Refusal>
        ensures { result ≡ hash10 input.now }
    {
        let mut sponge = Tip5::new(Domain::FixedLength);
        sponge.absorb(input)?;
        Ok(sponge.digest())
    }

    /// The digest of two digests. `WrongLength` where they are not five words each, then `BadWord`.
    #[tactic(auto, using(crate::proofs::StartLaws::pair_judged), unfolding(crate::specs::Digest::digest_of_pair))]
    pub fn hash_pair(left: &[u64], right: &[u64]) -> Result<[u64; 5], Refusal>
        ensures { result ≡ hash_pair left.now right.now }
    {
        judge_length(DIGEST_LENGTH, left)?;
        judge_length(DIGEST_LENGTH, right)?;
        judge_words(left)?;
        judge_words(right)?;
        Tip5::hash_10(&joined(left, right))
    }

    /// The digest of any number of words. `BadWord` where one is P or more.
    #[tactic(auto, using(crate::proofs::StartLaws::input_judged), unfolding(crate::specs::Digest::digest_of))]
    pub fn hash_varlen(input: &[u64]) -> Result<[u64; 5], Refusal>
        ensures { result ≡ hash_varlen input.now }
    {
        let mut sponge = Tip5::init();
        sponge.pad_and_absorb_all(input)?;
        Ok(sponge.digest())
    }

    // Words 0 to 4.
    #[tactic(auto, unfolding(crate::specs::Digest::digest))]
    fn digest(&self) -> [u64; 5]
        ensures { result ≡ Digest.digest self.now }
    {
        *self.state.first_chunk::<DIGEST_LENGTH>().unwrap()
    }
}

// Two digests, one after the other.
fn joined(left: &[u64], right: &[u64]) -> [u64; 10]
    requires { (length left.now ≡ 5) × (length right.now ≡ 5) }
    ensures { result ≡ left.now ++ right.now }
{
    [
        left[0], left[1], left[2], left[3], left[4], right[0], right[1], right[2], right[3],
        right[4],
    ]
}
