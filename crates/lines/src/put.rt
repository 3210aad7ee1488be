// Bytes and numbers at the front of a slice. Each call answers how many bytes it wrote, which have
// to fit, and leaves what stands after them as it was.
ghost use Rattle.std.specs.Prelude.{◌∷◌, ◌+◌, ◌<◌, ◌≤◌, length};
ghost use Rattle.lines.specs.Line.{space};
ghost use Rattle.lines.specs.Put.{Front};

use itoa::{Buffer, Integer};

// All the bytes of a slice.
pub(crate) fn put(bytes: &[u8], out: &mut [u8]) -> usize
    requires { length bytes.now ≤ length out.old }
    ensures { Front out.old bytes.now out.new result }
{
    out[..bytes.len()].copy_from_slice(bytes);
    bytes.len()
}

// A space and a number in decimal.
pub(crate) fn put_number<I: Integer>(n: I, out: &mut [u8]) -> usize
    requires { I.MAX_STR_LEN < length out.old }
    ensures text { Front out.old (space ∷ I.text n) out.new result }
    ensures short { result ≤ I.MAX_STR_LEN + 1 }
{
    let mut digits = Buffer::new();
    let at = put(b" ", out);
    at + put(digits.format(n).as_bytes(), &mut out[at..])
}
