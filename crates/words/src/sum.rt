// Sums and differences of two u64 with the bit that does not fit.
ghost use Rattle.std.specs.Prelude.{◌≡◌, ◌+◌, ◌-◌, ◌/◌, ◌%◌, ◌^◌};
ghost use Rattle.std.specs.Int.{from_bool};

/// a + b: the lower 64 bits, and whether there is a carry.
pub fn overflowing_add(a: u64, b: u64) -> (u64, bool)
    ensures sum { result.0 ≡ (a + b) % 2 ^ 64 }
    ensures carry { from_bool result.1 ≡ (a + b) / 2 ^ 64 }
{
    a.overflowing_add(b)
}

/// a - b: the difference modulo 2^64, and whether there is a borrow: whether a is less than b.
pub fn overflowing_sub(a: u64, b: u64) -> (u64, bool)
    ensures difference { result.0 ≡ (2 ^ 64 + a - b) % 2 ^ 64 }
    ensures borrow { from_bool result.1 ≡ 1 - (2 ^ 64 + a - b) / 2 ^ 64 }
{
    a.overflowing_sub(b)
}
