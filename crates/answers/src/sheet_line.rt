// The line that any bytes give, whatever they are. As in `lines` the array is lent and its count answered.
ghost use Rattle.lines.specs.Put.{Front};
ghost use Rattle.answers.specs.Answer.{sheet_line};

use crate::job::Job;
use lines::refused_line;
use sheet::read::read_sheet;

/// A digest, a draw or a refusal, as one line at the front of the array; the rest of it stays. Answers how many bytes the
/// line has.
pub fn sheet_line(sheet: &[u8], out: &mut [u8; 65536]) -> usize
    ensures { Front out.old (sheet_line sheet.now) out.new result }
{
    let mut words = [0; 8192];
    match read_sheet(sheet, &mut words) {
        Ok(header) => {
            let words = &words[..header.elements];
            Job { header, words }.line(out)
        }
        Err(refusal) => refused_line(refusal.into(), out),
    }
}
