// Judging before a digest is written: a wrong shape, then the room, then a bad word. The sizes stand apart here, since there
// is no table before all of this is judged.
ghost use Rattle.std.specs.Prelude.{◌≡◌, ◌*◌, ◌<◌, OnOk, length};
ghost use Rattle.refusals.specs.Judge.{length_refusal};
ghost use Rattle.rows.specs.Rows.{digest_count, size_refusal, width_refusal};

use refusals::Refusal;
use refusals::judge::judge_length;
use sponge::DIGEST_LENGTH;

// `WrongShape` where the width is not 1 or 3.
pub(crate) fn judge_width(width: usize) -> Result<(), Refusal>
    ensures value { result ≡ width_refusal width }
    ensures wide { OnOk result (0 < width) }
{
    if matches!(width, 1 | 3) {
        Ok(())
    } else {
        Err(Refusal::WrongShape)
    }
}

// `WrongShape` where the words are not as many as the columns have. A product that does not
// fit is no length of a slice.
pub(crate) fn judge_size(
    words: &[u64],
    columns: usize,
    rows: usize,
    width: usize,
) -> Result<(), Refusal>
    requires { 0 < width }
    ensures value { result ≡ size_refusal words.now columns rows width }
    ensures size { OnOk result (length words.now ≡ columns * rows * width) }
{
    let entries = columns.checked_mul(rows).ok_or(Refusal::WrongShape)?;
    let size = entries.checked_mul(width).ok_or(Refusal::WrongShape)?;
    if words.len() == size {
        Ok(())
    } else {
        Err(Refusal::WrongShape)
    }
}

// As many digests as rows, and none at zero columns.
#[tactic(auto, unfolding(crate::specs::Rows::digest_count))]
pub(crate) fn digest_count(columns: usize, rows: usize) -> usize
    ensures { result ≡ digest_count columns rows }
{
    if columns == 0 { 0 } else { rows }
}

// `WrongLength` where the room is not five words a digest.
pub(crate) fn judge_room(columns: usize, rows: usize, room: &[u64]) -> Result<(), Refusal>
    ensures value { result ≡ length_refusal (5 * digest_count columns rows) room.now }
    ensures long { OnOk result (length room.now ≡ 5 * digest_count columns rows) }
{
    let wanted = DIGEST_LENGTH
        .checked_mul(digest_count(columns, rows))
        .ok_or(Refusal::WrongLength)?;
    judge_length(wanted, room)
}
