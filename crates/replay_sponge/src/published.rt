// The two vectors that are published with the Rust, computed anew. They are values, not raw words.
use refusals::Refusal;
use replay::Tally;
use sponge::Tip5;
use tip5::b_field_element::{BFieldElement, Value};

// Ten zeros; six times, at i = 0 to 5, the digest of the ten is put at places i to i + 4. This is the
// digest of the outcome.
const OF_TENS: [u64; 5] = [
    10869784347448351760,
    1853783032222938415,
    6856460589287344822,
    17178399545409290325,
    7650660984651717733,
];

// The sum of the digests of the lists of values 0, 1, .., n - 1, for n = 0 to 19.
const OF_LISTS: [u64; 5] = [
    7610004073009036015,
    5725198067541094245,
    4721320565792709122,
    1732504843634706218,
    259800783350288362,
];

// The values of raw words.
fn values(digest: [u64; 5]) -> Result<[u64; 5], Refusal> {
    let mut values = digest;
    for word in &mut values {
        *word = BFieldElement(*word).value()?.0;
    }
    Ok(values)
}

fn of_tens() -> Result<[u64; 5], Refusal> {
    let mut ten = [0; 10];
    for i in 0..6 {
        let digest = Tip5::hash_10(&ten)?;
        ten[i..i + 5].copy_from_slice(&digest);
    }
    values(Tip5::hash_10(&ten)?)
}

fn of_lists() -> Result<[u64; 5], Refusal> {
    let mut list = [0; 20];
    let mut total = [0; 5];
    for n in 0..20 {
        let digest = Tip5::hash_varlen(&list[..n])?;
        for (sum, word) in total.iter_mut().zip(digest) {
            *sum = BFieldElement(*sum).add(BFieldElement(word))?.0;
        }
        list[n] = BFieldElement::new(Value(n as u64)).0;
    }
    values(total)
}

pub(crate) fn vectors() -> Tally {
    let mut tally = Tally::default();
    tally.note(of_tens() == Ok(OF_TENS));
    tally.note(of_lists() == Ok(OF_LISTS));
    tally
}
