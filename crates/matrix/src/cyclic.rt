// The cyclic half: eight sums to eight words, the circulant of the folded column, times 8.
ghost use Rattle.std.specs.Prelude.{◌≡◌, ◌^◌};
ghost use Rattle.numbers.specs.Linear.{times};
ghost use Rattle.matrix.specs.Parts.{cyclic_matrix};

// Answers node_152, 154, 156, 158, 153, 155, 157, 159. A pair is the sum of two products, a part a
// longer sum; each stands inside nodes of the Rust function, and is named after the first in it.
pub(crate) fn cyclic(sums: [u64; 8]) -> [u64; 8]
    ensures { result ≡ times (2 ^ 64) cyclic_matrix sums }
{
    let [
        node_34,
        node_35,
        node_36,
        node_37,
        node_38,
        node_39,
        node_40,
        node_41,
    ] = sums;
    let node_50 = node_34.wrapping_add(node_38);
    let node_52 = node_36.wrapping_add(node_40);
    let node_51 = node_35.wrapping_add(node_39);
    let node_53 = node_37.wrapping_add(node_41);
    let node_58 = node_50.wrapping_add(node_52);
    let node_59 = node_51.wrapping_add(node_53);
    let node_90 = node_34.wrapping_sub(node_38);
    let node_91 = node_35.wrapping_sub(node_39);
    let node_93 = node_37.wrapping_sub(node_41);
    let node_92 = node_36.wrapping_sub(node_40);
    let node_64 = node_58.wrapping_add(node_59).wrapping_mul(524757);
    let node_67 = node_58.wrapping_sub(node_59).wrapping_mul(52427);
    let node_71 = node_50.wrapping_sub(node_52);
    let node_72 = node_51.wrapping_sub(node_53);
    let node_69 = node_64.wrapping_add(node_67);
    let node_397 = node_71
        .wrapping_mul(18446744073709525744)
        .wrapping_sub(node_72.wrapping_mul(53918));
    let node_1857 = node_90.wrapping_mul(395512);
    let node_99 = node_91.wrapping_add(node_93);
    let node_1865 = node_91.wrapping_mul(18446744073709254400);
    let node_1869 = node_93.wrapping_mul(179380);
    let node_1873 = node_92.wrapping_mul(18446744073709509368);
    let node_70 = node_64.wrapping_sub(node_67);
    let node_702 = node_71
        .wrapping_mul(53918)
        .wrapping_add(node_72.wrapping_mul(18446744073709525744));
    let pair_1961 = node_90
        .wrapping_mul(18446744073709254400)
        .wrapping_add(node_91.wrapping_mul(395512));
    let pair_1965 = node_92
        .wrapping_mul(179380)
        .wrapping_add(node_93.wrapping_mul(18446744073709509368));
    let node_98 = node_90.wrapping_add(node_92);
    let node_86 = node_69.wrapping_add(node_397);
    let part_99 = node_99
        .wrapping_mul(18446744073709433780)
        .wrapping_sub(node_1865)
        .wrapping_sub(node_1869)
        .wrapping_add(node_1873);
    let node_403 = node_1857.wrapping_sub(part_99);
    let node_88 = node_70.wrapping_add(node_702);
    let node_708 = pair_1961.wrapping_sub(pair_1965);
    let node_87 = node_69.wrapping_sub(node_397);
    let part_1865 = node_1865
        .wrapping_add(node_98.wrapping_mul(353264))
        .wrapping_sub(node_1857)
        .wrapping_sub(node_1873);
    let node_897 = part_1865.wrapping_sub(node_1869);
    let node_89 = node_70.wrapping_sub(node_702);
    let pair_98 = node_98
        .wrapping_mul(18446744073709433780)
        .wrapping_add(node_99.wrapping_mul(353264));
    let node_1077 = pair_98.wrapping_sub(pair_1961).wrapping_sub(pair_1965);
    [
        node_86.wrapping_add(node_403),
        node_88.wrapping_add(node_708),
        node_87.wrapping_add(node_897),
        node_89.wrapping_add(node_1077),
        node_86.wrapping_sub(node_403),
        node_88.wrapping_sub(node_708),
        node_87.wrapping_sub(node_897),
        node_89.wrapping_sub(node_1077),
    ]
}
