// The longest text, 4,096 letters, with the pattern that is deepest to read, 448 letters in 64 open groups, and with the deepest to walk: 64
// groups, each with a mark, and 256 parts in a row. The first line of each answer is printed; tests/stack says in how much stack it runs.
#![tactic(auto)]

use std::io;
use tree::first_tree::first_tree;
use tree::outcome::{Outcome, flag, number, value};
use tree::room::CELLS;

fn show(rt: &impl Print, got: Outcome) -> io::Result<()> {
    println!(rt; "ANSWER {} {} {}", number(got), value(got), flag(got))
}

fn main(rt: HostRuntime) -> io::Result<()> {
    let letters =
        b"((((((((((((((((((((((((((((((((((((((((((((((((((((((((((((((((aaaaaaaaaaaaaaaaaaaaaaaaaaaaaaaaaaaaaaaaaaaaaaaaaaaaaaaaaaaaaaaaaaaaaaaaaaaaaaaaaaaaaaaaaaaaaaaaaaaaaaaaaaaaaaaaaaaaaaaaaaaaaaaaaaaaaaaaaaaaaaaaaaaaaaaaaaaaaaaaaaaaaaaaaaaaaaaaaaaaaaaaaaaaaaaaaaaaaaaaaaaaaaaaaaaaaaaaaaaaaaaaaaaaaaaaaaaaaaaaaaaaaaaaaaaaaaaaaaaaaaaaaaaaaaaaaaaaaaaaaaaaaaaaaaaaaaaaaaaaaaaaaaaaaaaaaaaaaaaaaaaaaaaaaaaaaaaaaaaaaaaaaaaaaaaaaaaaaaaaaaaaaaaaaaaaaaaaaaaaaaaaaaaaaaaaaaaaaaaaaaaaaaaaaaaaaaaaaaaaaaaaaaaaaaaaaaaaaaaaaaaaaaaa";
    let groups =
        b"((((((((((((((((((((((((((((((((((((((((((((((((((((((((((((((((a)*)*)*)*)*)*)*)*)*)*)*)*)*)*)*)*)*)*)*)*)*)*)*)*)*)*)*)*)*)*)*)*)*)*)*)*)*)*)*)*)*)*)*)*)*)*)*)*)*)*)*)*)*)*)*)*)*)*)*)*)*)*)*)*";
    let parts =
        b"a*()()()()()()()()()()()()()()()()()()()()()()()()()()()()()()()()()()()()()()()()()()()()()()()()()()()()()()()()()()()()()()()()()()()()()()()()()()()()()()()()()()()()()()()()()()()()()()()()()()()()()()()()()()()()()()()()()()()()()()()()()()()()()()()()()()()()()()()()()()()()()()()()()()()()()()()()()()()()()()()()()()()()()()()()()()()()()()()()()()()()()()()()()()()()()()()()()()()()()()()()()()()()()()()()()()()()()()()()()()()()()()()()()()()()()()()()()()()()()()()()()()()()()()()()()()()()()()()";
    let text = [b'a'; 4096];
    let mut cells = [0u64; CELLS];
    let mut room = [0u16; 12414];
    show(&rt, first_tree(letters, &text, &mut cells, &mut room))?;
    show(&rt, first_tree(groups, &text, &mut cells, &mut room))?;
    show(&rt, first_tree(parts, &text, &mut cells, &mut room))
}
