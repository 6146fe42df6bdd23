// The search for the first tree.
ghost use Rattle.std.specs.Prelude.{◌≤◌, ◌<◌, length};
ghost use Rattle.meaning.specs.Expression.{Re};
ghost use Rattle.meaning.specs.Limits.{text_limit};
ghost use Rattle.tree.specs.Outcome.{number_of, value_of, flag_of};
ghost use Rattle.tree.specs.Search.{Searched};
ghost use Rattle.tree.specs.Judge.{Given, Gives, Finds};

use crate::judge::{Kept, seek};
use crate::outcome::{Outcome, Refusal};
use crate::prepare::Reader;
use passes::cells::clear;
use pattern::{PATTERN_LIMIT, ReadPattern, fill};

// Bytes of a text.
pub const TEXT_LIMIT: usize = 4096;

// For a read pattern: fills the tables and the cells, judges, and clears the cells.
fn find(pattern: &ReadPattern, text: &[u8], cells: &mut [u64], tree: &mut [u16]) -> Outcome
    requires gives { Gives pattern.now }
    requires lent { (length text.now ≤ text_limit) × (length text.now < length cells.old) }
    ensures { (e : Re) → Given e pattern.now → Finds e text.now cells.old cells.new tree.old tree.new result }
{
    let mut reader = Reader::blank();
    reader.prepare(pattern);
    let mut kept = Kept::empty();
    let outcome = seek(pattern, &reader, &mut kept, text, cells, tree);
    clear(cells, text.len());
    outcome
}

// Reads the pattern and finds the first tree of the text: its length, and whether there is another tree, whether or not the room holds it.
#[tactic(auto, using(crate::specs::Search::long_pattern, crate::specs::Search::long_text, crate::specs::Search::few_cells))]
pub fn search(pattern: &[u8], text: &[u8], cells: &mut [u64], tree: &mut [u16]) -> Outcome
    ensures { Searched pattern.now text.now cells.old tree.old (number_of result) (value_of result) (flag_of result) cells.new tree.new }
{
    if PATTERN_LIMIT < pattern.len() {
        return Err(Refusal::Pattern(pattern::Refusal::TooLong));
    }
    if TEXT_LIMIT < text.len() {
        return Err(Refusal::LongText);
    }
    if cells.len() <= text.len() {
        return Err(Refusal::FewCells);
    }
    let mut read = ReadPattern::blank();
    fill(pattern, &mut read)?;
    find(&read, text, cells, tree)
}
