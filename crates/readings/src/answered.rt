// What is answered, printed.
use lines::print::Writer;
use std::io;
use tree::outcome::{Outcome, flag, number, value};
use turns::{count, number as turns_number, turns};

// A row of more tokens is not printed.
pub const SHORT: usize = 16;

// The line of a row, as the desk writes it.
pub fn tree_line(rt: &impl Print, row: &[u16]) -> io::Result<()> {
    let mut out = [0u8; 128];
    let mut line = Writer::new(&mut out);
    if row.len() <= SHORT {
        line.tree_line(row);
    }
    let end = line.len();
    rt.write_all(&out[..end])
}

// The row of an answer, if it has one: it stands at the front of the room.
pub fn row(got: Outcome, room: &[u16]) -> Option<&[u16]> {
    room.get(..got.ok()?.length)
}

// The line of an answer, as the desk writes it.
fn answer_line(rt: &impl Print, got: Outcome) -> io::Result<()> {
    let mut out = [0u8; 70];
    let mut line = Writer::new(&mut out);
    line.answer_line(number(got) as usize, value(got), flag(got));
    let end = line.len();
    rt.write_all(&out[..end])
}

// An answer of the first tree.
pub fn show(rt: &impl Print, got: Outcome, room: &[u16]) -> io::Result<()> {
    answer_line(rt, got)?;
    match row(got, room) {
        Some(row) => tree_line(rt, row),
        None => Ok(()),
    }
}

// A row, and how often the mark turned in it: the number 0 and the count, or 10.
pub fn counted(rt: &impl Print, row: &[u16], mark: usize) -> io::Result<()> {
    tree_line(rt, row)?;
    let got = turns(row, mark);
    println!(rt; "TURNS {} {}", turns_number(got), count(got))
}
