// What an accepted sheet asks for: the line of its digest, or the line of a draw.
ghost use Rattle.std.specs.Prelude.{map, ◌≡◌, ◌≤◌, ◌<◌, length};
ghost use Rattle.numbers.specs.Modulus.{P};
ghost use Rattle.rounds.specs.Field.{Below, value_of};
ghost use Rattle.refusals.specs.Judge.{none};
ghost use Rattle.sponge.specs.Digest.{digest_of};
ghost use Rattle.draws.specs.Answers.{draw_answer, in_front};
ghost use Rattle.lines.specs.Line.{digest_line};
ghost use Rattle.lines.specs.Put.{Front};
ghost use Rattle.answers.specs.Answer.{drawn_line, seeded_by};
ghost use Rattle.answers.specs.Job.{draw_by, line_by};

use draws::DrawError;
use draws::in_place::sample_indices;
use lines::{digest_line, draw_line, refused_line};
use refusals::Refusal;
use sheet::header::Header;
use sponge::Tip5;
use tip5::b_field_element::BFieldElement;

// The value of a raw word. A digest is public, and its words plain u64: a type for one below P is private to `tip5`.
#[tactic(auto, using(refusals::proofs::JudgeLaws::below_accepted))]
fn value(word: u64) -> u64
    requires { word < P }
    ensures { result ≡ value_of word }
{
    BFieldElement(word).value().unwrap().0
}

// The header of an accepted sheet, and the raw words of its elements.
// Nothing compares or prints it.
#[derive(Clone, Copy)]
pub(crate) struct Job<'a> {
    pub(crate) header: Header,
    pub(crate) words: &'a [u64],
    ghost bound: { header.log2 < 32 },
    ghost room: { header.indices ≤ 4095 },
    ghost below: { Below words.now },
}

impl<'a> Job<'a> {
    // The line by the job's number, which `Header`, a public type that may hold any, has: 0 is a digest, any other a draw.
    pub(crate) fn line(&self, out: &mut [u8; 65536]) -> usize
        ensures { Front out.old (line_by self.now.header.job self.now.header self.now.words.now) out.new result }
    {
        match self.header.job {
            0 => self.digest_line(out),
            _ => self.draw_line(out),
        }
    }

    // The line of the digest: its five values.
    fn digest_line(&self, out: &mut [u8; 65536]) -> usize
        ensures { Front out.old (digest_line (map value_of (digest_of self.now.words.now))) out.new result }
    {
        digest_line(&self.digest_values(), out)
    }

    // The values of the digest.
    #[tactic(auto, using(refusals::proofs::JudgeLaws::below_accepted, crate::proofs::SheetLineLaws::digest_below))]
    fn digest_values(&self) -> [u64; 5]
        ensures { result ≡ map value_of (digest_of self.now.words.now) }
    {
        let [a, b, c, d, e] = Tip5::hash_varlen(self.words).unwrap();
        [value(a), value(b), value(c), value(d), value(e)]
    }

    // The line of the draw: its squeezes and indices, or refusal 6 where some are missing.
    fn draw_line(&self, out: &mut [u8; 65536]) -> usize
        ensures { Front out.old (drawn_line self.now.header.indices (draw_by self.now.header self.now.words.now self.now.header.indices)) out.new result }
    {
        let mut indices = [0; 4095];
        let wanted = &mut indices[..self.header.indices];
        match self.draw(wanted) {
            Ok(squeezes) => draw_line(squeezes, wanted, out),
            Err(error) => refused_line(Refusal::from(error).into(), out),
        }
    }

    // The draw into a slice, from the words padded and absorbed.
    fn draw(&self, indices: &mut [u32]) -> Result<u64, DrawError>
        ensures answer { result ≡ draw_answer none (length indices.old) (draw_by self.now.header self.now.words.now (length indices.old)) }
        ensures slice { indices.new ≡ in_front (draw_by self.now.header self.now.words.now (length indices.old)).indices indices.old }
    {
        let mut sponge = self.seeded();
        sample_indices(
            &mut sponge,
            1 << self.header.log2,
            indices,
            self.header.allowance,
        )
    }

    // The sponge that a draw starts from.
    #[tactic(auto, using(refusals::proofs::JudgeLaws::below_accepted, sponge::proofs::SpongeLaws::start_below), unfolding(crate::specs::Answer::seeded_by))]
    fn seeded(&self) -> Tip5
        ensures { result ≡ seeded_by self.now.words.now }
    {
        let mut sponge = Tip5::init();
        sponge.pad_and_absorb_all(self.words).unwrap();
        sponge
    }
}
