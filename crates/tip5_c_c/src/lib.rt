// The two calls of tip5_c as a static library, with the same contracts: the archive that C links.
// include/tip5.h says what they promise. No crate can stand on a static library, so the calls
// themselves are a library's.
#![tactic(auto)]

ghost use Rattle.std.specs.Prelude.{◌≡◌};
ghost use Rattle.rounds.specs.Inverse.{inv_permuted};
ghost use Rattle.rounds.specs.Round.{permuted};
ghost use Rattle.refusals.specs.Number.{number};
ghost use Rattle.tip5_c.specs.Export.{after, bytes_refusal};

/// `tip5_c::tip5_permutation` for C.
#[unsafe(no_mangle)]
pub extern "C" fn tip5_permutation(state: &mut [u8]) -> u32
    ensures value { result ≡ number (bytes_refusal state.old) }
    ensures state_after { state.new ≡ after permuted state.old }
{
    tip5_c::tip5_permutation(state)
}

/// `tip5_c::tip5_inverse_permutation` for C.
#[unsafe(no_mangle)]
pub extern "C" fn tip5_inverse_permutation(state: &mut [u8]) -> u32
    ensures value { result ≡ number (bytes_refusal state.old) }
    ensures state_after { state.new ≡ after inv_permuted state.old }
{
    tip5_c::tip5_inverse_permutation(state)
}
