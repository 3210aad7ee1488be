// The digest of each row of a table whose columns lie one after another.
ghost use Rattle.std.specs.Prelude.{◌≡◌, ◌*◌, length};
ghost use Rattle.rows.specs.Rows.{digest_count, hashed_rows, rows_refusal};
ghost use Rattle.rows.specs.Table.{digests_in};

use crate::judge::{digest_count, judge_room, judge_size, judge_width};
use crate::table::Table;
use refusals::Refusal;
use refusals::judge::judge_words;
use sponge::DIGEST_LENGTH;

impl<'a> Table<'a> {
    // The digests of the rows in turn: the digest of a row, words 0 to 4 of its sponge, goes to its place.
    #[tactic(auto, using(crate::proofs::DigestLaws::digests_none, crate::proofs::DigestLaws::digests_more, crate::proofs::DigestLaws::count_le, std::proofs::lemmas::Grind::common_steps), unfolding(sponge::specs::Digest::digest, sponge::specs::Digest::digest_of))]
    fn put_digests(&self, digests: &mut [u64])
        requires { length digests.old ≡ 5 * digest_count self.now.columns self.now.rows }
        ensures { digests.new ≡ digests_in self.now (digest_count self.now.columns self.now.rows) }
    {
        // By a range: of `chunks_mut` the library says how long the slice ends, and not what it ends as.
        for row in 0..digest_count(self.columns, self.rows) {
            let sponge = self.row_sponge(row);
            let at = row * DIGEST_LENGTH;
            digests[at..at + DIGEST_LENGTH].copy_from_slice(&sponge.state[..DIGEST_LENGTH]);
        }
    }
}

/// Row r hashes, for column 0, 1, .., its parts in order, as one list of any length. Its digest goes to words 5r to 5r + 4 of
/// `digests`. `words` has the columns one after another, each of `rows` entries of `width` words. Any numbers may stand here:
/// `WrongShape` for a width that is not 1 or 3 or words that are not as many as the columns have, `WrongLength` where `digests`
/// is not five words a row (none at zero columns), `BadWord` for a word of P or more. A refusal writes no digest at all.
#[tactic(auto, unfolding(crate::specs::Rows::row_digests))]
pub fn hash_rows_of_columns(
    words: &[u64],
    columns: usize,
    rows: usize,
    width: usize,
    digests: &mut [u64],
) -> Result<(), Refusal>
    ensures value { result ≡ rows_refusal words.now columns rows width digests.old }
    ensures digests_after { digests.new ≡ hashed_rows words.now columns rows width digests.old }
{
    judge_width(width)?;
    judge_size(words, columns, rows, width)?;
    judge_room(columns, rows, digests)?;
    judge_words(words)?;
    let table = Table {
        words,
        columns,
        rows,
        width,
    };
    table.put_digests(digests);
    Ok(())
}
