// Judging a sheet: the refusals in their order, but for a spent allowance, which only a draw can meet.
// What is read off its elements is read off a sheet that is as long as its header says.
ghost use Rattle.std.specs.Prelude.{◌≡◌, ◌+◌, ◌*◌, ◌≤◌, ◌<◌, List, ℕ, length};
ghost use Rattle.rounds.specs.Field.{raw_of};
ghost use Rattle.refusals.specs.Judge.{granted};
ghost use Rattle.sheet.specs.Sheet.{element_limit, elements_in_front, field_refusal, header_of, judge_sheet, sheet_refusal, value, value_refusal};

use crate::header::{Header, read_header};
use refusals::Refusal;
use std::marker::Model;
use tip5::b_field_element::{BFieldElement, Value};

// The most elements that a sheet may have.
const ELEMENT_LIMIT: usize = 4096;

// `BadHeader` for a header that no sheet has. A digest sheet's log2, index and allowance fields are
// not judged.
fn judge_fields(header: Header) -> Result<(), Refusal>
    ensures { result ≡ field_refusal header }
{
    if header.version == 1 && header.job < 2 && header.elements <= ELEMENT_LIMIT {
        Ok(())
    } else {
        Err(Refusal::BadHeader)
    }
}

// A sheet that is as long as its header says: its bytes and that header. In clauses it is its bytes.
#[derive(Drop)]
pub(crate) struct Sheet<'a> {
    bytes: &'a [u8],
    header: Header,
}

impl<'a> Model for Sheet<'a> {
    ghost Value = { List ℕ };

    ghost view = { λ s. s.bytes.now };

    // As many elements stand behind the header as it says.
    ghost invariant = { λ s. (s.header ≡ header_of s.bytes.now)
        × (s.header.elements ≤ element_limit)
        × (length s.bytes.now ≡ 6 + 8 * s.header.elements) };
}

impl<'a> Sheet<'a> {
    // An accepted sheet, or the first refusal.
    pub(crate) fn judged(bytes: &'a [u8]) -> Result<Sheet<'a>, Refusal>
        ensures { result ≡ granted (sheet_refusal bytes.now) bytes.now }
    {
        let header = read_header(bytes)?;
        judge_fields(header)?;
        if bytes.len() != 6 + 8 * header.elements {
            return Err(Refusal::WrongSheetLength);
        }
        let sheet = Sheet { bytes, header };
        sheet.judge_values()?;
        Ok(sheet)
    }

    // `BadWord` where a value is P or more.
    #[tactic(auto, using(crate::proofs::ElementLaws::good_value), unfolding(crate::specs::Sheet::values_of))]
    fn judge_values(&self) -> Result<(), Refusal>
        ensures { result ≡ value_refusal (header_of self.now).elements self.now }
    {
        // By place: an element is eight bytes of the sheet, and no iterator over bytes answers values.
        for i in 0..self.header.elements {
            if BFieldElement::P <= self.value(i) {
                return Err(Refusal::BadWord);
            }
        }
        Ok(())
    }

    // The value of element i.
    #[tactic(auto, using(crate::proofs::BitLaws::number_word), unfolding(crate::specs::Sheet::value))]
    fn value(&self, i: usize) -> u64
        requires { i < (header_of self.now).elements }
        ensures { result ≡ value self.now i }
    {
        u64::from_be_bytes(*self.bytes[6 + 8 * i..].first_chunk::<8>().unwrap())
    }

    // The raw word of element i.
    fn word(&self, i: usize) -> u64
        requires { i < (header_of self.now).elements }
        ensures { result ≡ raw_of (value self.now i) }
    {
        BFieldElement::new(Value(self.value(i))).0
    }

    // The header of the sheet.
    pub(crate) fn header(&self) -> Header
        ensures { result ≡ header_of self.now }
    {
        self.header
    }

    // The raw words of the elements, at the front of an array.
    #[tactic(auto, using(crate::proofs::ElementLaws::one_word), unfolding(crate::specs::Sheet::words_of))]
    pub(crate) fn put_words(&self, words: &mut [u64; 8192])
        ensures { words.new ≡ elements_in_front self.now words.old }
    {
        for i in 0..self.header.elements {
            words[i] = self.word(i);
        }
    }
}

/// The header of an accepted sheet. Refused, in this order: `WrongSheetLength` for a sheet with no header, `BadHeader`
/// for another version or job or too many elements, `WrongSheetLength` for another length than the header says, `BadWord`
/// for a value that is P or more.
pub fn judge_sheet(sheet: &[u8]) -> Result<Header, Refusal>
    ensures { result ≡ judge_sheet sheet.now }
{
    let sheet = Sheet::judged(sheet)?;
    Ok(sheet.header())
}
