// Runs stored answers of the Rust through the digests, the sponge and the steps back, and the two
// published vectors, and writes how many answers differ.
#![tactic(auto)]

mod published;
mod stored;
mod vectors;

use replay::Tally;
use std::io;

fn report(rt: HostRuntime, name: &str, tally: Tally) -> io::Result<()> {
    println!(rt;
        "{name}: {} cases, {} different",
        tally.cases, tally.different
    )
}

fn main(rt: HostRuntime) -> io::Result<()> {
    report(rt, "starts", stored::starts())?;
    report(rt, "absorb, squeeze", stored::steps())?;
    report(rt, "step_back", stored::steps_back())?;
    report(rt, "pad_and_absorb_all", stored::padded())?;
    report(rt, "hash_10", stored::tens())?;
    report(rt, "hash_pair", stored::pairs())?;
    report(rt, "hash_varlen", stored::lists())?;
    report(rt, "published", published::vectors())
}
