// What is asked, printed and handed on.
use crate::answered::{SHORT, counted, row, show, tree_line};
use lines::desk::{ROOM, desk_lines};
use rows::{RowError, row_of};
use std::io;
use std::io::{Cursor, Write};
use tree::first_tree::first_tree;
use tree::room::CELLS;

// Bytes of the longest pattern that is built, and what is lent unless a line says otherwise: enough for `a*` and 4,096 letters.
const LONG: usize = 8192;

const TOKENS: usize = 12288;

fn judged(
    rt: &impl Print,
    pattern: &[u8],
    text: &[u8],
    cells: &mut [u64],
    room: &mut [u16],
) -> io::Result<()> {
    let got = first_tree(pattern, text, cells, room);
    show(rt, got, room)
}

// With all that is lent. It keeps its own frame, so that no other has what it lends.
#[inline(never)]
fn ample(rt: &impl Print, pattern: &[u8], text: &[u8]) -> io::Result<()> {
    judged(rt, pattern, text, &mut [0; CELLS], &mut [0; TOKENS])
}

pub fn plain(rt: &impl Print, pattern: &str, text: &str) -> io::Result<()> {
    println!(rt; "\"{pattern}\" on \"{text}\"")?;
    ample(rt, pattern.as_bytes(), text.as_bytes())
}

// On a text of letters a.
pub fn on_letters(rt: &impl Print, pattern: &str, text: &[u8]) -> io::Result<()> {
    println!(rt; "\"{pattern}\" on {} letters a", text.len())?;
    ample(rt, pattern.as_bytes(), text)
}

// `open` k times, `core`, and `close` k times, on a text of letters a.
pub fn grown(
    rt: &impl Print,
    open: &str,
    core: &str,
    close: &str,
    k: usize,
    text: &[u8],
) -> io::Result<()> {
    print!(rt; "{k} times \"{open}\", \"{core}\", as often \"{close}\"")?;
    println!(rt; " on {} letters a", text.len())?;
    let mut pattern = Cursor::new([0u8; LONG]);
    for _ in 0..k {
        pattern.write_all(open.as_bytes())?;
    }
    pattern.write_all(core.as_bytes())?;
    for _ in 0..k {
        pattern.write_all(close.as_bytes())?;
    }
    let end = pattern.position() as usize;
    match pattern.get_ref().get(..end) {
        Some(pattern) => ample(rt, pattern, text),
        None => Ok(()),
    }
}

// With these cells and this room.
pub fn lent(
    rt: &impl Print,
    pattern: &str,
    text: &str,
    cells: &mut [u64],
    room: &mut [u16],
) -> io::Result<()> {
    print!(rt; "\"{pattern}\" on \"{text}\"")?;
    println!(rt; ", cells {}, room {}", cells.len(), room.len())?;
    judged(rt, pattern.as_bytes(), text.as_bytes(), cells, room)
}

// The turns of a mark in a row that no tree has.
pub fn row_turned(rt: &impl Print, mark: usize) -> io::Result<()> {
    println!(rt; "turns of mark {mark} in")?;
    counted(rt, &[1, 1, 353, 129, 1, 353], mark)
}

// The turns of a mark in the first tree.
pub fn turned(rt: &impl Print, pattern: &str, text: &str, mark: usize) -> io::Result<()> {
    println!(rt; "turns of mark {mark} of \"{pattern}\" on \"{text}\"")?;
    let mut room = [0u16; TOKENS];
    let got = first_tree(
        pattern.as_bytes(),
        text.as_bytes(),
        &mut [0; CELLS],
        &mut room,
    );
    match row(got, &room) {
        Some(row) => counted(rt, row, mark),
        None => Ok(()),
    }
}

// The whole desk on an input.
pub fn desk(rt: &impl Print, input: &str) -> io::Result<()> {
    println!(rt; "the desk on\n{input}")?;
    let mut out = [0u8; ROOM];
    let end = desk_lines(input.as_bytes(), &mut out);
    rt.write_all(&out[..end])
}

// A TREE line, read back and printed again.
pub fn back(rt: &impl Print, line: &str) -> io::Result<()> {
    println!(rt; "read back \"{line}\"")?;
    let mut room = [0u16; SHORT];
    match row_of(line.as_bytes(), &mut room) {
        Ok(n) => tree_line(rt, &room[..n]),
        Err(RowError::SmallRoom(n)) => println!(rt; "too long: {n}"),
        Err(RowError::NoRow) => println!(rt; "no row"),
    }
}
