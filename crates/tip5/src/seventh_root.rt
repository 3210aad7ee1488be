// The seventh root of four words side by side, by a fixed chain of products: the processor works on
// one word while it waits for another.
ghost use Rattle.std.specs.Prelude.{◌≡◌, ◌^◌, get_or};
ghost use Rattle.numbers.specs.Lists.{tab};
ghost use Rattle.numbers.specs.Modulus.{root_exponent};
ghost use Rattle.rounds.specs.Field.{mul, power};
ghost use Rattle.tip5.specs.Powers.{powers};

use crate::element::Element;

// The base squared `times` times, then multiplied by the tail.
fn power_accumulator(base: [Element; 4], times: u64, tail: [Element; 4]) -> [Element; 4]
    ensures { result ≡ tab 4 0 (λ k. mul (power (get_or base k 0) (2 ^ times)) (get_or tail k 0)) }
{
    let mut square = base;
    for _ in 0..times {
        square = square.map(|a| a * a);
    }
    [
        square[0] * tail[0],
        square[1] * tail[1],
        square[2] * tail[2],
        square[3] * tail[3],
    ]
}

// a to the power 1 + 8 + .. + 8^10.
fn to_eleven_octal_ones(a: [Element; 4]) -> [Element; 4]
    ensures { result ≡ powers 1227133513 a }
{
    let two = power_accumulator(a, 3, a);
    let four = power_accumulator(two, 6, two);
    let five = power_accumulator(four, 3, a);
    let ten = power_accumulator(five, 15, five);
    power_accumulator(ten, 3, a)
}

// a to the power 1 + 2 + .. + 2^32.
fn to_thirty_three_ones(a: [Element; 4]) -> [Element; 4]
    ensures { result ≡ powers 8589934591 a }
{
    let two = power_accumulator(a, 1, a);
    let four = power_accumulator(two, 2, two);
    let eight = power_accumulator(four, 4, four);
    let sixteen = power_accumulator(eight, 8, eight);
    let all_but_one = power_accumulator(sixteen, 16, sixteen);
    power_accumulator(all_but_one, 1, a)
}

// The exponent of the root is the product of the two.
pub(crate) fn seventh_roots(a: [Element; 4]) -> [Element; 4]
    ensures { result ≡ powers root_exponent a }
{
    to_thirty_three_ones(to_eleven_octal_ones(a))
}
