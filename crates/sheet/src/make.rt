// The night: the pattern is read, the reports are judged and counted, and the sheet is written. All but the table of records, which takes the
// figures that this hands back.
ghost use Rattle.std.specs.Prelude.{◌≡◌, ◌≤◌, length};
ghost use Rattle.meaning.specs.Expression.{Re};
ghost use Rattle.meaning.specs.Limits.{night_cells, sheet_bytes};
ghost use Rattle.tree.specs.Judge.{Given, Gives};
ghost use Rattle.sheet.specs.Figures.{Makes, Completes};

use crate::checks::objection;
use crate::figures::{Made, Refusal};
use crate::text::text;
use meaning::Record;
use night::night;
use pattern::{PATTERN_LIMIT, ReadPattern, fill};
use tree::room::CELLS;

// Bytes of the sheet that are to be lent.
const SHEET: usize = 8192;

// Looks whether the night is in order, judges and counts its reports, and writes the sheet.
fn complete(
    pattern: &ReadPattern,
    reports: &[u8],
    lengths: &[u64],
    last: &[u64],
    records: usize,
    cells: &mut [u64],
    tree: &mut [u16],
    sheet: &mut [u8],
) -> Result<Made, Refusal>
    requires gives { Gives pattern.now }
    requires lent { (night_cells ≤ length cells.old) × (sheet_bytes ≤ length sheet.old) }
    ensures { (e : Re) → Given e pattern.now
        → Completes e reports.now lengths.now last.now records cells.old tree.old sheet.old
        result cells.new tree.new sheet.new }
{
    objection(lengths, reports.len(), last, records, pattern.marks)?;
    let mut numbers = [0u8; 1000];
    let mut figures = [Record {
        turns: 0,
        bytes: 0,
        longest: 0,
    }; 64];
    night(
        pattern,
        reports,
        lengths,
        cells,
        tree,
        &mut numbers,
        &mut figures,
    );
    let length = text(
        &numbers[..lengths.len()],
        &figures[..pattern.marks],
        last,
        sheet,
    );
    Ok(Made { length, figures })
}

// The whole night.
pub fn make(
    pattern: &[u8],
    reports: &[u8],
    lengths: &[u64],
    last: &[u64],
    records: usize,
    cells: &mut [u64],
    tree: &mut [u16],
    sheet: &mut [u8],
) -> Result<Made, Refusal>
    ensures { Makes pattern.now reports.now lengths.now last.now records
        cells.old tree.old sheet.old result cells.new tree.new sheet.new }
{
    if PATTERN_LIMIT < pattern.len() {
        return Err(Refusal::Pattern(pattern::Refusal::TooLong));
    }
    if cells.len() < CELLS || sheet.len() < SHEET {
        return Err(Refusal::LittleLent);
    }
    let mut read = ReadPattern::blank();
    fill(pattern, &mut read)?;
    complete(&read, reports, lengths, last, records, cells, tree, sheet)
}
