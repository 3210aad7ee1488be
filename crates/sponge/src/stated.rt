// What the public constants are. Nothing calls these functions: a constant has no contract, so each
// function says by its own what one constant is.
ghost use Rattle.std.specs.Prelude.{◌≡◌};

fn rate_is() -> usize
    ensures { result ≡ 10 }
{
    crate::RATE
}

fn digest_length_is() -> usize
    ensures { result ≡ 5 }
{
    crate::DIGEST_LENGTH
}
