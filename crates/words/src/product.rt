// The product of two u64, which has 128 bits: its upper and its lower half. They are two functions,
// because each then compiles to one multiply instruction.
ghost use Rattle.std.specs.Prelude.{◌≡◌, ◌*◌, ◌/◌, ◌%◌, ◌^◌};

/// The upper 64 bits of a * b.
pub fn upper_product(a: u64, b: u64) -> u64
    ensures { result ≡ a * b / 2 ^ 64 }
{
    (a as u128 * b as u128 >> 64) as u64
}

/// The lower 64 bits of a * b, which is the product modulo 2^64.
pub fn wrapping_mul(a: u64, b: u64) -> u64
    ensures { result ≡ a * b % 2 ^ 64 }
{
    a.wrapping_mul(b)
}
