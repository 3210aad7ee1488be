// The lines that the program writes, each at the front of a lent array. What stands in the array
// after the line is left as it was. Not by `write!`: its contract speaks only where it answers Ok,
// which it promises of no writer, and these calls answer a line on every input. The array is lent and
// its count answered, since these calls are public and a library has no heap.
#![tactic(auto)]

mod put;

ghost use Rattle.lines.specs.Line.{bounded_draw_line, digest_line, refused_line};
ghost use Rattle.lines.specs.Put.{Front};

use put::{put, put_number};

// The most indices that a line may have: a sheet can ask for no more.
const INDEX_LIMIT: usize = 4095;

/// The line of a digest: its five values. Answers how many bytes the line has.
pub fn digest_line(values: &[u64; 5], out: &mut [u8; 65536]) -> usize
    ensures { Front out.old (digest_line values.now) out.new result }
{
    let mut at = put(b"digest", out);
    for &value in values {
        at += put_number(value, &mut out[at..]);
    }
    at + put(b"\n", &mut out[at..])
}

/// The line of a draw: its squeezes and its indices. Answers how many bytes the line has. For more
/// indices than a line may have nothing is written, and the answer is 0: a count and no Result, since
/// this call has never failed.
#[tactic(auto, unfolding(crate::specs::Line::bounded_draw_line))]
pub fn draw_line(squeezes: u64, indices: &[u32], out: &mut [u8; 65536]) -> usize
    ensures { Front out.old (bounded_draw_line squeezes indices.now) out.new result }
{
    if INDEX_LIMIT < indices.len() {
        return 0;
    }
    let mut at = put(b"draw", out);
    at += put_number(squeezes, &mut out[at..]);
    for &index in indices {
        at += put_number(index, &mut out[at..]);
    }
    at + put(b"\n", &mut out[at..])
}

/// The line of a refusal: its number. A byte and no enum, which would ask more of callers. Answers how
/// many bytes the line has.
pub fn refused_line(refusal: u8, out: &mut [u8; 65536]) -> usize
    ensures { Front out.old (refused_line refusal) out.new result }
{
    let mut at = put(b"refused", out);
    at += put_number(refusal, &mut out[at..]);
    at + put(b"\n", &mut out[at..])
}
