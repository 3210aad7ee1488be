// The first layer: words eight places apart are added and subtracted, which cuts a cyclic product
// of length sixteen into a cyclic and a negacyclic one of length eight. A line is a node of the Rust
// function. One function over the operation would need a clause on what it answers for every two words,
// more to read than eight plain lines twice.
ghost use Rattle.std.specs.Prelude.{◌≡◌, ◌^◌};
ghost use Rattle.numbers.specs.Linear.{times};
ghost use Rattle.matrix.specs.Parts.{sums_matrix, differences_matrix};

// What the cyclic half takes: node_34 to node_41.
pub(crate) fn sums(input: [u64; 16]) -> [u64; 8]
    ensures { result ≡ times (2 ^ 64) sums_matrix input }
{
    [
        input[0].wrapping_add(input[8]),
        input[1].wrapping_add(input[9]),
        input[2].wrapping_add(input[10]),
        input[3].wrapping_add(input[11]),
        input[4].wrapping_add(input[12]),
        input[5].wrapping_add(input[13]),
        input[6].wrapping_add(input[14]),
        input[7].wrapping_add(input[15]),
    ]
}

// What the negacyclic half takes: node_160 to node_167.
pub(crate) fn differences(input: [u64; 16]) -> [u64; 8]
    ensures { result ≡ times (2 ^ 64) differences_matrix input }
{
    [
        input[0].wrapping_sub(input[8]),
        input[1].wrapping_sub(input[9]),
        input[2].wrapping_sub(input[10]),
        input[3].wrapping_sub(input[11]),
        input[4].wrapping_sub(input[12]),
        input[5].wrapping_sub(input[13]),
        input[6].wrapping_sub(input[14]),
        input[7].wrapping_sub(input[15]),
    ]
}
