// Tables: the digests of their rows, and a view of one column.
ghost use Rattle.std.specs.Prelude.{◌≡◌};
ghost use Rattle.refusals.specs.Number.{handed, number};
ghost use Rattle.columns.specs.Column.{entry, row_count};
ghost use Rattle.rows.specs.Rows.{hashed_rows, rows_refusal};

use crate::handing::hand_out;
use columns::Column;
use refusals::Refusal;
use refusals::refusal::number;
use rows::hash_rows;

#[unsafe(no_mangle)]
pub extern "C" fn probe_hash_rows_of_columns(
    words: &[u64],
    columns: usize,
    rows: usize,
    width: usize,
    digests: &mut [u64],
) -> u32
    ensures value { result ≡ number (rows_refusal words.now columns rows width digests.old) }
    ensures digests_after { digests.new ≡ hashed_rows words.now columns rows width digests.old }
{
    number(hash_rows::hash_rows_of_columns(words, columns, rows, width, digests))
}

// A number of rows, 0 where the call is refused.
fn hand_out_count(answer: Result<usize, Refusal>, count: &mut u64) -> u32
    ensures { (result, count.new) ≡ handed answer 0 }
{
    let mut given = 0;
    let refusal = hand_out(answer, &mut given);
    *count = given as u64;
    refusal
}

// A word, 0 where the call is refused.
fn hand_out_word(answer: Result<u64, Refusal>, word: &mut u64) -> u32
    ensures { (result, word.new) ≡ handed answer 0 }
{
    *word = 0;
    hand_out(answer, word)
}

#[unsafe(no_mangle)]
pub extern "C" fn probe_row_count(
    words: &[u64],
    stride: usize,
    offset: usize,
    count: &mut u64,
) -> u32
    ensures { (result, count.new) ≡ handed (row_count words.now stride offset) 0 }
{
    hand_out_count(columns::row_count(words, stride, offset), count)
}

#[unsafe(no_mangle)]
pub extern "C" fn probe_entry(
    words: &[u64],
    stride: usize,
    offset: usize,
    row: usize,
    word: &mut u64,
) -> u32
    ensures { (result, word.new) ≡ handed (entry words.now stride offset row) 0 }
{
    hand_out_word(columns::entry(words, stride, offset, row), word)
}

#[unsafe(no_mangle)]
pub extern "C" fn probe_column_entry(
    words: &[u64],
    stride: usize,
    offset: usize,
    row: usize,
    word: &mut u64,
) -> u32
    ensures { (result, word.new) ≡ handed (entry words.now stride offset row) 0 }
{
    hand_out_word(columns::column_entry(words, stride, offset, row), word)
}

#[unsafe(no_mangle)]
pub extern "C" fn probe_column_rows(
    words: &[u64],
    stride: usize,
    offset: usize,
    count: &mut u64,
) -> u32
    ensures { (result, count.new) ≡ handed (row_count words.now stride offset) 0 }
{
    let column = Column {
        elements: words,
        stride,
        offset,
    };
    hand_out_count(column.num_rows(), count)
}
