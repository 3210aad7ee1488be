// Reading a sheet: it is judged, and where it is accepted its elements are handed out as raw words.
ghost use Rattle.std.specs.Prelude.{◌≡◌};
ghost use Rattle.sheet.specs.Sheet.{judge_sheet, read_words};

use crate::header::Header;
use crate::judge::Sheet;
use refusals::Refusal;

// An array with its length in the header, and no Vec: a library has no heap.

/// The header of an accepted sheet, its words at the front of the array and the rest of it as it was. Refused as
/// `judge_sheet`, with the array as it was.
#[tactic(auto, unfolding(crate::specs::Sheet::read_words))]
pub fn read_sheet(sheet: &[u8], words: &mut [u64; 8192]) -> Result<Header, Refusal>
    ensures judged { result ≡ judge_sheet sheet.now }
    ensures read { words.new ≡ read_words sheet.now words.old }
{
    let sheet = Sheet::judged(sheet)?;
    sheet.put_words(words);
    Ok(sheet.header())
}
