// A column of a slice of words: every stride-th word from an offset on. `Column` holds the three
// together, as the Rust has it, and does the work; the functions on plain parameters make one.
#![tactic(auto)]

ghost use Rattle.std.specs.Prelude.{◌≡◌};
ghost use Rattle.columns.specs.Column.{entry, row_count};

use refusals::Refusal;
use refusals::judge::judge_words;

/// A view of one column: row r is at `offset + r * stride`. Any stride and offset may stand here: each call judges them.
#[derive(Clone, Copy, Debug, PartialEq, Eq, Hash)]
pub struct Column<'a> {
    pub elements: &'a [u64],
    pub stride: usize,
    pub offset: usize,
}

impl<'a> Column<'a> {
    /// How many whole rows the view has. `WrongShape` where the offset is not below the stride.
    pub fn num_rows(self) -> Result<usize, Refusal>
        ensures { result ≡ row_count self.entry.elements.now self.entry.stride self.entry.offset }
    {
        if self.stride <= self.offset {
            return Err(Refusal::WrongShape);
        }
        Ok(self.elements.len() / self.stride)
    }

    /// The word in a row. `WrongShape` where the view has no such row, `BadWord` where the word is P or more.
    pub fn get(self, row: usize) -> Result<u64, Refusal>
        ensures { result ≡ entry self.entry.elements.now self.entry.stride self.entry.offset row }
    {
        if self.num_rows()? <= row {
            return Err(Refusal::WrongShape);
        }
        let word = self.elements[self.offset + row * self.stride];
        judge_words(&[word])?;
        Ok(word)
    }
}

// The three calls on plain parameters are public, and docs/CONTRACTS.md names them: each is a view and its method.

/// How many whole rows there are, as `Column::num_rows`.
pub fn row_count(words: &[u64], stride: usize, offset: usize) -> Result<usize, Refusal>
    ensures { result ≡ row_count words.now stride offset }
{
    Column {
        elements: words,
        stride,
        offset,
    }
    .num_rows()
}

/// The word of a row, as `Column::get`.
pub fn entry(words: &[u64], stride: usize, offset: usize, row: usize) -> Result<u64, Refusal>
    ensures { result ≡ entry words.now stride offset row }
{
    Column {
        elements: words,
        stride,
        offset,
    }
    .get(row)
}

/// The word of a row, as `Column::get`.
pub fn column_entry(words: &[u64], stride: usize, offset: usize, row: usize) -> Result<u64, Refusal>
    ensures { result ≡ entry words.now stride offset row }
{
    entry(words, stride, offset, row)
}
