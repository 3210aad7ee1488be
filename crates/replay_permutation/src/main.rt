// Runs stored traces of the Rust through the trace, the permutation and each round, forth and back,
// by value and in place, and writes how many answers differ.
#![tactic(auto)]

mod vectors;

use refusals::Refusal;
use replay::Tally;
use states::{in_place, trace};
use std::io;
use tip5::{inverse, permutation};

/// The entry state and that after each round.
pub type Trace = [[u64; 16]; 6];

// Compares what a call by value and its twin in place make of a state.
fn moved<V, I>(tally: &mut Tally, before: [u64; 16], after: [u64; 16], by_value: V, in_place: I)
where
    V: FnOnce([u64; 16]) -> Result<[u64; 16], Refusal>,
    I: FnOnce(&mut [u64]) -> Result<(), Refusal>,
    requires value { V.IsAlwaysCallable by_value }
    requires place { I.IsAlwaysCallable in_place }
{
    tally.note(by_value(before) == Ok(after));
    let mut lent = before;
    let answer = in_place(&mut lent);
    tally.note(answer == Ok(()) && lent == after);
}

// Compares the 25 answers on one trace: itself, and the permutation and five rounds in four ways.
fn add(tally: &mut Tally, states: &Trace) {
    let flat = states.as_flattened();
    tally.note(trace::trace(states[0]).is_ok_and(|answer| answer.as_slice() == flat));
    moved(
        tally,
        states[0],
        states[5],
        permutation::permutation,
        in_place::permute,
    );
    moved(
        tally,
        states[5],
        states[0],
        inverse::inv_permutation,
        in_place::inv_permute,
    );
    for round in 0..5 {
        moved(
            tally,
            states[round],
            states[round + 1],
            |state| permutation::round(round, state),
            |state| in_place::permute_round(round, state),
        );
        moved(
            tally,
            states[round + 1],
            states[round],
            |state| inverse::inv_round(round, state),
            |state| in_place::inv_permute_round(round, state),
        );
    }
}

fn add_all(tally: &mut Tally, traces: &[Trace]) {
    for states in traces {
        add(tally, states);
    }
}

fn main(rt: HostRuntime) -> io::Result<()> {
    let mut tally = Tally::default();
    add_all(&mut tally, &vectors::KNOWN);
    add_all(&mut tally, &vectors::BEYOND_P);
    add_all(&mut tally, &vectors::EDGES);
    add_all(&mut tally, &vectors::CHANCE);
    println!(rt;
        "permutation: {} cases, {} different",
        tally.cases, tally.different
    )
}
