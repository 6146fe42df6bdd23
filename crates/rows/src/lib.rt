// A TREE line read back into tokens. The line is read twice: a bad one, or one too long for the room, leaves the room as it was.
#![tactic(auto)]

ghost use Rattle.std.specs.Prelude.{◌≡◌, ◌<◌};
ghost use Rattle.rows.specs.Rows.{Line, RowOf};
ghost use Rattle.rows.specs.Front.{NumberIn, base, Rest, FrontOf, Finds};

use lines::parts::is_word;
use lines::print::Writer;
use walks::step::put;

// Why no row is read: the line has so many tokens and the room fewer, or it is no TREE line.
#[derive(Clone, Copy, PartialEq, Eq, Debug)]
pub enum RowError {
    SmallRoom(usize),
    NoRow,
}

// With what the rest of a line begins: a token and how many bytes it has, or the end.
#[derive(Clone, Copy)]
enum Front {
    Token(u16, usize),
    End,
}

// The number at the front. No digit is read behind one that is past sixteen bits already.
fn number_in(s: &[u8]) -> usize
    ensures { NumberIn s.now result }
{
    let mut v = 0;
    for b in s {
        if !b.is_ascii_digit() || v > 65535 {
            break;
        }
        v = v * 10 + (b - b'0') as usize;
    }
    v
}

// What is added to the number behind a letter.
fn base(letter: u8) -> usize
    ensures value { result ≡ base letter }
    ensures upper_bound { result < 257 }
{
    match letter {
        b'o' => 0,
        b'c' => 128,
        _ => 256,
    }
}

// With what the rest of a line begins. A token is read as if all were well, printed, and compared with what stands there.
fn front_of(s: &[u8]) -> Option<Front>
    ensures { FrontOf s.now result }
{
    match s {
        [b'\n'] => Some(Front::End),
        [_, letter, digits @ ..] => {
            let t = u16::try_from(base(*letter) + number_in(digits)).ok()?;
            let mut bytes = [0u8; 8];
            let mut printed = Writer::new(&mut bytes);
            printed.token(t);
            let k = printed.len();
            is_word(s, &bytes[..k]).then_some(Front::Token(t, k))
        }
        _ => None,
    }
}

// The tokens of the rest of a line, put into the room as far as it goes and counted in any case.
fn tokens_in(s: &[u8], room: &mut [u16]) -> Option<usize>
    ensures { Finds (Rest s.now) room.old result room.new }
{
    let mut rest = s;
    let mut n = 0;
    while let Front::Token(t, k) = front_of(rest)? {
        n = put(room, n, t);
        rest = &rest[k..];
    }
    Some(n)
}

// The tokens of a line, put and counted in the same way.
fn line_in(line: &[u8], room: &mut [u16]) -> Option<usize>
    ensures { Finds (Line line.now) room.old result room.new }
{
    tokens_in(line.strip_prefix(b"TREE")?, room)
}

// Reads a TREE line back: its tokens go to the front of the room, if it holds them.
pub fn row_of(line: &[u8], room: &mut [u16]) -> Result<usize, RowError>
    ensures { RowOf line.now room.old result room.new }
{
    let n = line_in(line, &mut []).ok_or(RowError::NoRow)?;
    if room.len() < n {
        return Err(RowError::SmallRoom(n));
    }
    line_in(line, room);
    Ok(n)
}
