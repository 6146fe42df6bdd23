// From the end of the text backwards: which positions can read the next byte and finish.
ghost use Rattle.std.specs.Prelude.{◌≡◌, List, ℕ, ◌≤◌, ◌<◌, length};
ghost use Rattle.sets.specs.declared.set.Set.{Set};
ghost use Rattle.sets.specs.Members.{has, limit, rows, held};
ghost use Rattle.passes.specs.Ways.{leading, Memo, Recalled, Preceding, Backed};

use crate::steps::after;
use sets::set::Set;

// The positions that read b and may come before a member of next.
fn back(mask: &[Set], pre: &[Set], b: usize, next: Set) -> Set
    requires { (b < rows mask.now) × (limit ≤ rows pre.now) }
    ensures { (q : ℕ) → has result q ≡ leading mask.now pre.now b (has next) q }
{
    let reading = mask[b];
    let before = after(pre, next);
    reading.meet(before)
}

// What was found last for a byte, and from which set.
#[derive(Clone, Copy)]
pub struct Recent {
    pub next: Set,
    pub found: Set,
}

// The same, with what was found last for each byte.
fn recall(mask: &[Set], pre: &[Set], memo: &mut [Recent; 256], b: u8, next: Set) -> Set
    requires { (256 ≤ rows mask.now) × (limit ≤ rows pre.now) × Memo mask.now pre.now memo.old }
    ensures { Recalled mask.now pre.now b next result memo.new }
{
    let row = b as usize;
    let last = &memo[row];
    if last.next.same(next) {
        return last.found;
    }
    let found = back(mask, pre, row, next);
    memo[row] = Recent { next, found };
    found
}

// Cell i becomes the set of those for the text from byte i on; the last cell, after the text, becomes empty. What is kept for each byte serves
// for every text.
pub fn backward(
    text: &[u8],
    mask: &[Set],
    pre: &[Set],
    ends: Set,
    memo: &mut [Recent; 256],
    cells: &mut [u64],
)
    requires enough_rows { (256 ≤ rows mask.now) × (limit ≤ rows pre.now) × (length text.now < length cells.old) }
    requires memo { Memo mask.now pre.now memo.old }
    ensures backed { (follow : List Set) → Preceding follow pre.now → Backed mask.now follow ends text.now (held cells.old) (held cells.new) }
    ensures memo_stays { Memo mask.now pre.now memo.new }
{
    let n = text.len();
    Set::empty().store(cells, n);
    if n == 0 {
        return;
    }
    let last = n - 1;
    let reading = mask[text[last] as usize];
    let mut next = reading.meet(ends);
    next.store(cells, last);
    for i in (0..last).rev() {
        next = recall(mask, pre, memo, text[i], next);
        next.store(cells, i);
    }
}
