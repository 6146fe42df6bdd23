// The turn count: how many openings of a mark in a row of tokens have a byte token before the mark's next closing.
#![tactic(auto)]

ghost use Rattle.std.specs.Prelude.{◌≡◌, ◌≤◌, ◌<◌};
ghost use Rattle.meaning.specs.Promise.{Counted};
ghost use Rattle.turns.specs.Numbers.{number_of, count_of};
ghost use Rattle.turns.specs.Behind.{Lengthens};

// Marks are numbered from 1 up to this.
pub const MARK_LIMIT: usize = 64;

// A mark is closed by its number and this.
const CLOSING: u16 = 128;

// No mark has the number.
#[derive(Clone, Copy, PartialEq, Eq, Debug)]
pub struct NoMark;

// The number and the count of an answer.
pub fn number(t: Result<usize, NoMark>) -> u32
    ensures { result ≡ number_of t }
{
    match t {
        Ok(_) => 0,
        Err(NoMark) => 10,
    }
}

pub fn count(t: Result<usize, NoMark>) -> usize
    ensures { result ≡ count_of t }
{
    t.unwrap_or(0)
}

// What stands behind a place of a row: whether the mark is closed there, whether an opening at the place is counted, and how many openings
// behind it are.
#[derive(Clone, Copy)]
struct Behind {
    closed: bool,
    counted: bool,
    turns: usize,
}

// What stands behind the place before, where this token is.
fn lengthened(behind: Behind, token: u16, mark: u16) -> Behind
    requires small_mark { mark ≤ 64 }
    requires few_turns { behind.turns < 9223372036854775808 }
    ensures { Lengthens mark token behind result }
{
    let mut next = behind;
    match token {
        t if t == mark => next.turns += usize::from(behind.counted),
        t if t == mark + CLOSING => {
            next.closed = true;
            next.counted = false;
        }
        // a byte
        256..=511 => next.counted = behind.closed,
        _ => {}
    }
    next
}

// From the end of the row to its front, so that what an opening waits for has been seen.
pub fn turns(row: &[u16], mark: usize) -> Result<usize, NoMark>
    ensures { Counted row.now mark (number_of result) (count_of result) }
{
    if mark < 1 || MARK_LIMIT < mark {
        return Err(NoMark);
    }
    let mut behind = Behind {
        closed: false,
        counted: false,
        turns: 0,
    };
    for token in row.iter().rev() {
        behind = lengthened(behind, *token, mark as u16);
    }
    Ok(behind.turns)
}
