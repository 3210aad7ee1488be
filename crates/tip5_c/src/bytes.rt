// Sixteen words and 128 bytes, each word lowest byte first.
ghost use Rattle.std.specs.Prelude.{◌≡◌, length};
ghost use Rattle.tip5_c.specs.Bytes.{bytes_of, words_of};

pub(crate) fn words_of(bytes: &[u8]) -> [u64; 16]
    requires { length bytes.now ≡ 128 }
    ensures { result ≡ words_of bytes.now }
{
    let (eights, _) = bytes.as_chunks::<8>();
    let mut words = [0u64; 16];
    // By place, as the definition has it: by `map` the equation of the whole array stays open.
    for k in 0..16 {
        words[k] = u64::from_le_bytes(eights[k]);
    }
    words
}

pub(crate) fn put_words(bytes: &mut [u8], words: [u64; 16])
    requires { length bytes.old ≡ 128 }
    ensures { bytes.new ≡ bytes_of words }
{
    // By place: of `as_chunks_mut` and `chunks_mut` the library does not say what the slice ends as.
    for k in 0..16 {
        bytes[8 * k..8 * k + 8].copy_from_slice(&words[k].to_le_bytes());
    }
}
