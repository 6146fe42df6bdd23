// The night sheet: its text, the figures of the marks, and the call.
#![tactic(auto)]

ghost use Rattle.meaning.specs.Sheet.{Sheeted};
ghost use Rattle.sheet.specs.Answers.{number_of, value_of};

mod checks;
pub mod figures;
pub mod make;
mod text;

use crate::figures::Answer;
use crate::make::make;
use meaning::Record;

// The figures of the night are made without the table, and then go to it; a refusal has none.
pub fn sheet(
    pattern: &[u8],
    reports: &[u8],
    lengths: &[u64],
    last: &[u64],
    cells: &mut [u64],
    tree: &mut [u16],
    table: &mut [Record],
    sheet: &mut [u8],
) -> Answer
    ensures { Sheeted pattern.now reports.now lengths.now last.now cells.old tree.old table.old sheet.old (number_of result) (value_of result) cells.new tree.new table.new sheet.new }
{
    let records = table.len();
    let made = make(pattern, reports, lengths, last, records, cells, tree, sheet)?;
    table.copy_from_slice(&made.figures[..records]);
    Ok(made.length)
}
