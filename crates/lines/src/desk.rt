// The desk: the first bytes of an input part into pattern and text, and what is answered is printed.
ghost use Rattle.meaning.specs.Desk.{pattern_in, text_in};
ghost use Rattle.lines.specs.Desked.{Answer, Desked};

use crate::parts::split;
use crate::print::Writer;
use tree::first_tree::first_tree;
use tree::outcome::{flag, number, value};
use tree::room::CELLS;

// Bytes taken and tokens lent: `input_limit` and `desk_tokens` of meaning's Desk, which lends as many cells as every text can do with.
pub const TAKEN: usize = 8192;

const TOKENS: usize = 8192;

// No output is longer.
pub const ROOM: usize = 65536;

// The lines of a pattern and a text.
fn answered(pattern: &[u8], text: &[u8], out: &mut [u8]) -> usize
    ensures { Answer pattern.now text.now out.old out.new result }
{
    let mut cells = [0u64; CELLS];
    let mut room = [0u16; TOKENS];
    let got = first_tree(pattern, text, &mut cells, &mut room);
    let mut lines = Writer::new(out);
    lines.answer_line(number(got) as usize, value(got), flag(got));
    if let Ok(tree) = got {
        lines.tree_line(&room[..tree.length]);
    }
    lines.len()
}

// The lines of the bytes taken.
fn parted(taken: &[u8], out: &mut [u8]) -> usize
    ensures { Answer (pattern_in taken.now) (text_in taken.now) out.old out.new result }
{
    let end = split(taken);
    let from = (end + 1).min(taken.len());
    answered(&taken[..end], &taken[from..], out)
}

// The lines of an input, at the front of the room: how many bytes they have.
pub fn desk_lines(input: &[u8], out: &mut [u8; ROOM]) -> usize
    ensures { Desked input.now out.old out.new result }
{
    let n = TAKEN.min(input.len());
    parted(&input[..n], out)
}
