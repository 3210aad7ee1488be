// The stored answers, group by group: each function makes the calls of a group and counts them. The tens, their digests and
// the states of the chain are tables of their own, since a ten is hashed and is a step of the chain too.
use crate::vectors::{CHAIN, FIXED_LENGTH, LIST, LIST_DIGESTS, PADDED, TEN_DIGESTS, TENS};
use replay::Tally;
use sponge::step_back::{StepKind, step_back};
use sponge::{Domain, RATE, Tip5, by_value};

// A state of the chain.
fn chained(state: &[u64; 16]) -> Tip5 {
    Tip5 { state: *state }
}

pub(crate) fn starts() -> Tally {
    let mut tally = Tally::default();
    tally.note(Tip5::init() == chained(&CHAIN[0]));
    tally.note(Tip5::new(Domain::FixedLength) == chained(&FIXED_LENGTH));
    tally
}

// Step i of the chain leads from state i to the next: every even one absorbs a ten, every odd one squeezes. By place, since
// both states of a step stand in one table.
pub(crate) fn steps() -> Tally {
    let mut tally = Tally::default();
    for i in 0..TENS.len() {
        let before = chained(&CHAIN[i]);
        let after = chained(&CHAIN[i + 1]);
        let same = if i % 2 == 0 {
            by_value::absorb(before, &TENS[i]) == Ok(after)
        } else {
            by_value::squeeze(before).is_ok_and(|(next, ten)| {
                next == after && ten.as_slice() == &before.state[..RATE]
            })
        };
        tally.note(same);
    }
    tally
}

// The same steps undone, each with the words that it had overwritten.
pub(crate) fn steps_back() -> Tally {
    let mut tally = Tally::default();
    for i in 0..TENS.len() {
        let before = chained(&CHAIN[i]);
        let after = chained(&CHAIN[i + 1]);
        let kind = if i % 2 == 0 {
            StepKind::Absorb
        } else {
            StepKind::Squeeze
        };
        tally.note(step_back(kind, after, &before.state[..RATE]) == Ok(before));
    }
    tally
}

// Words of the list between two lengths that are padded.
const STRIDE: usize = 6;

pub(crate) fn padded() -> Tally {
    let mut tally = Tally::default();
    for i in 0..PADDED.len() {
        let input = &LIST[..STRIDE * i];
        let want = chained(&PADDED[i]);
        tally.note(by_value::pad_and_absorb_all(chained(&CHAIN[i]), input) == Ok(want));
    }
    tally
}

pub(crate) fn tens() -> Tally {
    let mut tally = Tally::default();
    for (ten, digest) in TENS.iter().zip(&TEN_DIGESTS) {
        tally.note(Tip5::hash_10(ten) == Ok(*digest));
    }
    tally
}

// The two halves of each ten.
pub(crate) fn pairs() -> Tally {
    let mut tally = Tally::default();
    for (ten, digest) in TENS.iter().zip(&TEN_DIGESTS) {
        let (left, right) = ten.split_at(5);
        tally.note(Tip5::hash_pair(left, right) == Ok(*digest));
    }
    tally
}

// The first words of the list, so many of them as a digest has before it.
pub(crate) fn lists() -> Tally {
    let mut tally = Tally::default();
    for n in 0..LIST_DIGESTS.len() {
        tally.note(Tip5::hash_varlen(&LIST[..n]) == Ok(LIST_DIGESTS[n]));
    }
    tally
}
