// The negacyclic half: eight differences to eight words. Its matrix is the circulant's with the right
// half taken from the left, times 8. The two functions share only their first sums, and no product:
// one for both would be the two, one after the other.
ghost use Rattle.std.specs.Prelude.{◌≡◌, ◌^◌};
ghost use Rattle.numbers.specs.Linear.{times};
ghost use Rattle.matrix.specs.Parts.{even_matrix, odd_matrix};

// Words 0, 2, 4, 6: node_412, 906, 1237, 1492. A part or a sum stands inside nodes of the Rust
// function, and is named after the first node in it.
pub(crate) fn negacyclic_even(differences: [u64; 8]) -> [u64; 4]
    ensures { result ≡ times (2 ^ 64) even_matrix differences }
{
    let [
        node_160,
        node_161,
        node_162,
        node_163,
        node_164,
        node_165,
        node_166,
        node_167,
    ] = differences;
    let node_177 = node_161.wrapping_add(node_165);
    let node_179 = node_163.wrapping_add(node_167);
    let node_178 = node_162.wrapping_add(node_166);
    let node_176 = node_160.wrapping_add(node_164);
    let node_1879 = node_160.wrapping_mul(35608);
    let node_185 = node_161.wrapping_add(node_163);
    let node_1915 = node_161.wrapping_mul(18446744073709340312);
    let node_1921 = node_163.wrapping_mul(18446744073709494992);
    let node_1927 = node_162.wrapping_mul(18446744073709450808);
    let node_228 = node_165.wrapping_add(node_167);
    let node_1939 = node_165.wrapping_mul(18446744073709420056);
    let node_1945 = node_167.wrapping_mul(18446744073709505128);
    let node_1951 = node_166.wrapping_mul(216536);
    let node_1957 = node_164.wrapping_mul(18446744073709515080);
    let node_184 = node_160.wrapping_add(node_162);
    let node_227 = node_164.wrapping_add(node_166);
    let node_271 = node_177.wrapping_add(node_179);
    let node_1891 = node_177.wrapping_mul(18446744073709208752);
    let node_1897 = node_179.wrapping_mul(18446744073709448504);
    let node_1903 = node_178.wrapping_mul(115728);
    let node_1909 = node_185.wrapping_mul(18446744073709283688);
    let node_1933 = node_228.wrapping_mul(18446744073709373568);
    let node_2007 = node_184.wrapping_mul(18446744073709486416);
    let node_2013 = node_227.wrapping_mul(180000);
    let node_2035 = node_176.wrapping_mul(18446744073709550688);
    let node_270 = node_176.wrapping_add(node_178);
    let part_1909 = node_1909
        .wrapping_sub(node_1915)
        .wrapping_sub(node_1921)
        .wrapping_add(node_1927);
    let part_1933 = node_1933
        .wrapping_sub(node_1939)
        .wrapping_sub(node_1945)
        .wrapping_add(node_1951);
    let part_1915 = node_1915
        .wrapping_add(node_2007)
        .wrapping_sub(node_1879)
        .wrapping_sub(node_1927);
    let part_1939 = node_1939
        .wrapping_add(node_2013)
        .wrapping_sub(node_1957)
        .wrapping_sub(node_1951);
    let part_271 = node_271
        .wrapping_mul(18446744073709105640)
        .wrapping_sub(node_1891)
        .wrapping_sub(node_1897);
    let sum_271 = part_271
        .wrapping_add(node_1903)
        .wrapping_sub(part_1909)
        .wrapping_sub(part_1933);
    let node_412 = node_1879.wrapping_sub(sum_271.wrapping_add(node_1957));
    let part_1897 = node_1897
        .wrapping_sub(node_1921)
        .wrapping_sub(node_1945)
        .wrapping_add(part_1939);
    let node_906 = part_1915.wrapping_sub(part_1897);
    let sum_1909 = part_1909
        .wrapping_add(node_2035)
        .wrapping_sub(node_1879)
        .wrapping_sub(node_1957);
    let node_1237 = sum_1909.wrapping_sub(part_1933);
    let part_1891 = node_1891
        .wrapping_add(node_270.wrapping_mul(114800))
        .wrapping_sub(node_2035)
        .wrapping_sub(node_1903);
    let sum_1921 = node_1921
        .wrapping_add(part_1891)
        .wrapping_sub(part_1915)
        .wrapping_sub(part_1939);
    let node_1492 = sum_1921.wrapping_sub(node_1945);
    [node_412, node_906, node_1237, node_1492]
}

// Words 1, 3, 5, 7: node_717, 1086, 1375, 1657. A pair is the sum of two products, a part or a sum
// a longer one, named after the first node in it.
pub(crate) fn negacyclic_odd(differences: [u64; 8]) -> [u64; 4]
    ensures { result ≡ times (2 ^ 64) odd_matrix differences }
{
    let [
        node_160,
        node_161,
        node_162,
        node_163,
        node_164,
        node_165,
        node_166,
        node_167,
    ] = differences;
    let node_177 = node_161.wrapping_add(node_165);
    let node_179 = node_163.wrapping_add(node_167);
    let node_178 = node_162.wrapping_add(node_166);
    let node_176 = node_160.wrapping_add(node_164);
    let node_185 = node_161.wrapping_add(node_163);
    let node_228 = node_165.wrapping_add(node_167);
    let node_184 = node_160.wrapping_add(node_162);
    let node_227 = node_164.wrapping_add(node_166);
    let node_271 = node_177.wrapping_add(node_179);
    let node_270 = node_176.wrapping_add(node_178);
    let pair_1970 = node_160
        .wrapping_mul(18446744073709340312)
        .wrapping_add(node_161.wrapping_mul(35608));
    let pair_1982 = node_162
        .wrapping_mul(18446744073709494992)
        .wrapping_add(node_163.wrapping_mul(18446744073709450808));
    let pair_1988 = node_166
        .wrapping_mul(18446744073709505128)
        .wrapping_add(node_167.wrapping_mul(216536));
    let pair_1994 = node_164
        .wrapping_mul(18446744073709420056)
        .wrapping_add(node_165.wrapping_mul(18446744073709515080));
    let pair_1976 = node_178
        .wrapping_mul(18446744073709448504)
        .wrapping_add(node_179.wrapping_mul(115728));
    let pair_2020 = node_184
        .wrapping_mul(18446744073709283688)
        .wrapping_add(node_185.wrapping_mul(18446744073709486416));
    let pair_2026 = node_227
        .wrapping_mul(18446744073709373568)
        .wrapping_add(node_228.wrapping_mul(180000));
    let pair_2038 = node_176
        .wrapping_mul(18446744073709208752)
        .wrapping_add(node_177.wrapping_mul(18446744073709550688));
    let part_2020 = pair_2020.wrapping_sub(pair_1970).wrapping_sub(pair_1982);
    let part_2026 = pair_2026.wrapping_sub(pair_1994).wrapping_sub(pair_1988);
    let part_1976 = pair_1976
        .wrapping_sub(pair_1982)
        .wrapping_sub(pair_1988)
        .wrapping_add(pair_1994);
    let node_717 = pair_1970.wrapping_sub(part_1976);
    let node_1086 = part_2020.wrapping_sub(part_2026);
    let part_1982 = pair_1982
        .wrapping_add(pair_2038)
        .wrapping_sub(pair_1970)
        .wrapping_sub(pair_1994);
    let node_1375 = part_1982.wrapping_sub(pair_1988);
    let pair_270 = node_270
        .wrapping_mul(18446744073709105640)
        .wrapping_add(node_271.wrapping_mul(114800));
    let sum_270 = pair_270
        .wrapping_sub(pair_2038)
        .wrapping_sub(pair_1976)
        .wrapping_sub(part_2020);
    let node_1657 = sum_270.wrapping_sub(part_2026);
    [node_717, node_1086, node_1375, node_1657]
}
