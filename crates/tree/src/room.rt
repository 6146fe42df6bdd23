// How much a caller lends so that no answer is for want of it.
ghost use Rattle.std.specs.Prelude.{◌≡◌, ◌≤◌};
ghost use Rattle.meaning.specs.Limits.{text_limit, mark_limit, cells_for, room_for};
ghost use Rattle.tree.specs.Lending.{Enough};

use crate::search::TEXT_LIMIT;
use pattern::MARK_LIMIT;

// The work cells that every text can do with.
pub const CELLS: usize = 4097;

// The work cells that a text of n bytes asks for.
fn cells_for(n: usize) -> usize
    requires { n ≤ text_limit }
    ensures { result ≡ cells_for n }
{
    n + 1
}

// The tokens that hold every tree of a text of n bytes, where the pattern has so many marks.
pub fn room_for(marks: usize, n: usize) -> usize
    requires { (marks ≤ mark_limit) × (n ≤ text_limit) }
    ensures { result ≡ room_for marks n }
{
    if n == 0 {
        return 2 * marks;
    }
    n + 2 * (marks * n)
}

// Work cells and tokens.
#[derive(Clone, Copy)]
pub struct Lending {
    pub cells: usize,
    pub tokens: usize,
}

// What to lend for a pattern with so many marks and a text of n bytes. A text over its limit asks for nothing: it is refused before the
// cells are looked at; and so many marks are refused before the room is.
#[tactic(auto, using(crate::specs::Lending::long_text, crate::specs::Lending::over_marks, crate::specs::Lending::enough))]
pub fn to_lend(marks: usize, n: usize) -> Lending
    ensures { Enough marks n result.cells result.tokens }
{
    if TEXT_LIMIT < n {
        return Lending {
            cells: 0,
            tokens: 0,
        };
    }
    let cells = cells_for(n);
    if usize::from(MARK_LIMIT) < marks {
        return Lending { cells, tokens: 0 };
    }
    Lending {
        cells,
        tokens: room_for(marks, n),
    }
}
