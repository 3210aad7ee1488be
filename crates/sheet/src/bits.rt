// Bit fields of a few bytes, the most significant bit first.
ghost use Rattle.std.specs.Prelude.{◌≡◌, ◌+◌, ◌*◌, ◌<◌, ◌≤◌, length};
ghost use Rattle.sheet.specs.Bits as Bits;

// A bit field of at most eight bytes: bits offset, offset + 1, .., as many as the width says. Where
// there are fewer than eight, zeros stand before them.
pub(crate) fn field(bytes: &[u8], offset: usize, width: usize) -> u64
    requires { (length bytes.now ≤ 8) × (offset + width ≤ 8 * length bytes.now) × (0 < width) × (width < 64) }
    ensures { result ≡ Bits.field bytes.now offset width }
{
    let mut eight = [0; 8];
    eight[8 - bytes.len()..].copy_from_slice(bytes);
    let below = 8 * bytes.len() - (offset + width);
    (u64::from_be_bytes(eight) >> below) & ((1 << width) - 1)
}
