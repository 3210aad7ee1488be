// The header of a sheet.
ghost use Rattle.std.specs.Prelude.{◌≡◌};
ghost use Rattle.sheet.specs.Header.{header};
ghost use Rattle.sheet.specs.Sheet.{read_header};

use crate::bits::field;
use refusals::Refusal;

/// The six fields, in their order: `log2` is that of the bound. Any numbers may stand here, as in any six bytes: so the
/// job is a number too, and `judge::judge_sheet` alone says which jobs there are.
#[derive(Clone, Copy, Debug, PartialEq, Eq, Hash)]
pub struct Header {
    pub version: u8,
    pub job: u8,
    pub log2: u32,
    pub elements: usize,
    pub indices: usize,
    pub allowance: u64,
}

impl From<[u8; 6]> for Header {
    ghost from_gives = { λ six h. h ≡ header six };

    #[tactic(auto, unfolding(crate::specs::Bits::field))]
    fn from(six: [u8; 6]) -> Header {
        Header {
            version: field(&six, 0, 4) as u8,
            job: field(&six, 4, 2) as u8,
            log2: field(&six, 6, 5) as u32,
            elements: field(&six, 11, 13) as usize,
            indices: field(&six, 24, 12) as usize,
            allowance: field(&six, 36, 12),
        }
    }
}

/// The header of a sheet, whatever its fields say. `WrongSheetLength` where there are fewer than six bytes, and so none.
pub fn read_header(sheet: &[u8]) -> Result<Header, Refusal>
    ensures { result ≡ read_header sheet.now }
{
    let six = sheet.first_chunk::<6>().ok_or(Refusal::WrongSheetLength)?;
    Ok(Header::from(*six))
}
