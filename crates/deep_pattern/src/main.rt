// Reads the patterns that are deepest to read: 512 open parentheses, and 448 letters in 64 open groups. tests/stack says in how much stack it
// runs.
#![tactic(auto)]

use pattern::{ReadPattern, Refusal};
use std::io;

fn show(rt: &impl Print, reading: &Result<ReadPattern, Refusal>) -> io::Result<()> {
    match reading {
        Err(Refusal::NoPattern(place)) => println!(rt; "no pattern, at {place}"),
        _ => println!(rt; "another answer"),
    }
}

fn main(rt: HostRuntime) -> io::Result<()> {
    let letters =
        b"((((((((((((((((((((((((((((((((((((((((((((((((((((((((((((((((aaaaaaaaaaaaaaaaaaaaaaaaaaaaaaaaaaaaaaaaaaaaaaaaaaaaaaaaaaaaaaaaaaaaaaaaaaaaaaaaaaaaaaaaaaaaaaaaaaaaaaaaaaaaaaaaaaaaaaaaaaaaaaaaaaaaaaaaaaaaaaaaaaaaaaaaaaaaaaaaaaaaaaaaaaaaaaaaaaaaaaaaaaaaaaaaaaaaaaaaaaaaaaaaaaaaaaaaaaaaaaaaaaaaaaaaaaaaaaaaaaaaaaaaaaaaaaaaaaaaaaaaaaaaaaaaaaaaaaaaaaaaaaaaaaaaaaaaaaaaaaaaaaaaaaaaaaaaaaaaaaaaaaaaaaaaaaaaaaaaaaaaaaaaaaaaaaaaaaaaaaaaaaaaaaaaaaaaaaaaaaaaaaaaaaaaaaaaaaaaaaaaaaaaaaaaaaaaaaaaaaaaaaaaaaaaaaaaaaaaaaaaaaaa";
    show(&rt, &pattern::read(&[b'('; 512]))?;
    show(&rt, &pattern::read(letters))
}
