// Runs stored answers of the Rust through the field calls and writes how many differ.
#![tactic(auto)]

mod vectors;

use refusals::Refusal;
use std::io;
use tip5::b_field_element::{BFieldElement, Value};

/// The calls of the field.
#[derive(Clone, Copy, Debug, PartialEq, Eq, Hash)]
pub enum Call {
    New,
    FromRawU64,
    RawU64,
    Value,
    Add,
    Sub,
    Mul,
    ModPow,
}

/// A call, the words that go in, the second 0 where there is none, and the answer.
pub type Case = (Call, u64, u64, Result<u64, Refusal>);

// A table of stored cases can hold no functions that take this one or those two arguments, so each call is a variant.
fn answer(call: Call, a: u64, b: u64) -> Result<u64, Refusal> {
    let x = BFieldElement(a);
    let y = BFieldElement(b);
    match call {
        Call::New => Ok(BFieldElement::new(Value(a)).0),
        Call::FromRawU64 => Ok(BFieldElement::from_raw_u64(a)?.0),
        Call::RawU64 => x.raw_u64(),
        Call::Value => Ok(x.value()?.0),
        Call::Add => Ok(x.add(y)?.0),
        Call::Sub => Ok(x.sub(y)?.0),
        Call::Mul => Ok(x.mul(y)?.0),
        Call::ModPow => Ok(x.mod_pow(b)?.0),
    }
}

// How many of the stored cases differ.
fn different() -> usize {
    vectors::CASES
        .iter()
        .filter(|(call, a, b, want)| answer(*call, *a, *b) != *want)
        .count()
}

fn main(rt: HostRuntime) -> io::Result<()> {
    println!(rt;
        "field: {} cases, {} different",
        vectors::CASES.len(),
        different()
    )
}
