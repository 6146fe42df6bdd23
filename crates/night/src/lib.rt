// The reports of a night, judged one after another by the tables of one pattern, and counted.
#![tactic(auto)]

ghost use Rattle.std.specs.Prelude.{◌≤◌, length};
ghost use Rattle.meaning.specs.Expression.{Re};
ghost use Rattle.meaning.specs.Limits.{night_cells};
ghost use Rattle.meaning.specs.Sheet.{LengthsRight};
ghost use Rattle.tree.specs.Judge.{Given, Gives, Prepared, Prepares, Serves};
ghost use Rattle.tree.specs.Outcome.{number_of};
ghost use Rattle.night.specs.Reports.{Spacious, Zero, Reported, Passed, Nightly};

use kinds::ReadPattern;
use meaning::Record;
use passes::cells::clear;
use tally::tally;
use tree::first_tree::told;
use tree::judge::{Kept, seek};
use tree::outcome::{Outcome, Refusal, number};
use tree::prepare::Reader;
use tree::search::TEXT_LIMIT;

// Judges a report, and counts its row where it has one in the room.
#[tactic(auto, using(crate::proofs::Reporting::reported_long))]
fn report(
    pattern: &ReadPattern,
    reader: &Reader,
    kept: &mut Kept,
    text: &[u8],
    cells: &mut [u64],
    tree: &mut [u16],
    figures: &mut [Record; 64],
) -> Outcome
    requires prepares { Prepares pattern.now reader.now }
    requires serves { Serves pattern.now reader.now kept.old }
    requires cells_lent { night_cells ≤ length cells.old }
    requires spacious { Spacious figures.old }
    ensures reported { (e : Re) → Prepared e pattern.now reader.now
        → Reported e text.now cells.old cells.new tree.old tree.new figures.old figures.new (number_of result) }
    ensures still_serves { Serves pattern.now reader.now kept.new }
{
    if TEXT_LIMIT < text.len() {
        return Err(Refusal::LongText);
    }
    let room = tree.len();
    let found = told(seek(pattern, reader, kept, text, cells, tree), room)?;
    tally(&tree[..found.length], figures);
    Ok(found)
}

// All of them: the number of each goes to its place. What one report keeps, of steps back and of ways on, serves for the next.
fn pass(
    pattern: &ReadPattern,
    reader: &Reader,
    reports: &[u8],
    lengths: &[u64],
    cells: &mut [u64],
    tree: &mut [u16],
    numbers: &mut [u8; 1000],
    figures: &mut [Record; 64],
)
    requires prepares { Prepares pattern.now reader.now }
    requires lengths_right { LengthsRight reports.now lengths.now }
    requires cells_lent { night_cells ≤ length cells.old }
    requires zero { Zero numbers.old figures.old }
    ensures { (e : Re) → Prepared e pattern.now reader.now
        → Passed e reports.now lengths.now cells.old cells.new tree.old tree.new numbers.new figures.new }
{
    let mut kept = Kept::empty();
    let mut at = 0;
    for (i, long) in lengths.iter().enumerate() {
        let end = at + *long as usize;
        let text = &reports[at..end];
        let answer = report(pattern, reader, &mut kept, text, cells, tree, figures);
        numbers[i] = number(answer) as u8;
        at = end;
    }
}

// For a read pattern: fills the tables, judges and counts the reports, and clears the cells.
pub fn night(
    pattern: &ReadPattern,
    reports: &[u8],
    lengths: &[u64],
    cells: &mut [u64],
    tree: &mut [u16],
    numbers: &mut [u8; 1000],
    figures: &mut [Record; 64],
)
    requires gives { Gives pattern.now }
    requires lengths_right { LengthsRight reports.now lengths.now }
    requires cells_lent { night_cells ≤ length cells.old }
    requires zero { Zero numbers.old figures.old }
    ensures { (e : Re) → Given e pattern.now
        → Nightly e reports.now lengths.now cells.old cells.new tree.old tree.new numbers.new figures.new }
{
    let mut reader = Reader::blank();
    reader.prepare(pattern);
    pass(
        pattern, &reader, reports, lengths, cells, tree, numbers, figures,
    );
    clear(cells, TEXT_LIMIT);
}
