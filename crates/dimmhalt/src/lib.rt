// The calls as C sees them, in one archive. Each hands on what it is given.
#![tactic(auto)]

ghost use Rattle.meaning.specs.Calls.{FirstTreeCall, ReadCall, TurnsCall, SheetCall};
ghost use Rattle.meaning.specs.Promise.{Verdict};

use calls::{first_tree_call, read_call, tell_value, turns_call};
use meaning::Record;
use verdict::verdict;

#[unsafe(no_mangle)]
pub extern "C" fn dimmhalt_verdict(pattern: &[u8], text: &[u8]) -> u32
    ensures { Verdict pattern.now text.now result }
{
    verdict(pattern, text)
}

#[unsafe(no_mangle)]
pub extern "C" fn dimmhalt_first_tree(
    pattern: &[u8],
    text: &[u8],
    cells: &mut [u64],
    tree: &mut [u16],
    out: &mut [u64],
) -> u32
    ensures { FirstTreeCall pattern.now text.now cells.old tree.old out.old result cells.new tree.new out.new }
{
    first_tree_call(pattern, text, cells, tree, out)
}

#[unsafe(no_mangle)]
pub extern "C" fn dimmhalt_read(pattern: &[u8], out: &mut [u64]) -> u32
    ensures { ReadCall pattern.now out.old result out.new }
{
    read_call(pattern, out)
}

#[unsafe(no_mangle)]
pub extern "C" fn dimmhalt_turns(row: &[u16], mark: u64, out: &mut [u64]) -> u32
    ensures { TurnsCall row.now mark out.old result out.new }
{
    turns_call(row, mark, out)
}

#[unsafe(no_mangle)]
pub extern "C" fn dimmhalt_sheet(
    pattern: &[u8],
    reports: &[u8],
    lengths: &[u64],
    last: &[u64],
    cells: &mut [u64],
    tree: &mut [u16],
    table: &mut [Record],
    sheet: &mut [u8],
    out: &mut [u64],
) -> u32
    ensures { SheetCall pattern.now reports.now lengths.now last.now cells.old tree.old table.old sheet.old out.old result cells.new tree.new table.new sheet.new out.new }
{
    let got = sheet::sheet(pattern, reports, lengths, last, cells, tree, table, sheet);
    tell_value(out, got)
}
