// The text of the sheet, put into a lent row as far as it goes and counted in any case.
ghost use Rattle.std.specs.Prelude.{◌≡◌, ◌++◌, ◌+◌, ◌*◌, ◌≤◌, length};
ghost use Rattle.meaning.specs.Limits.{mark_limit, report_limit};
ghost use Rattle.meaning.specs.Sheet.{line, lines, mark_lines, change, change_lines, sheet_text};
ghost use Rattle.lines.specs.Wrote.{Wrote, far};
ghost use Rattle.lines.specs.Puts.{Puts};

use lines::print::Writer;
use meaning::Record;

// A number, and byte 10.
fn line(w: &mut Writer, n: usize)
    requires { w.old.at + 21 ≤ far }
    ensures puts { Puts w.old (line n) w.new }
    ensures upper_bound { w.new.at ≤ w.old.at + 21 }
{
    w.decimal(n);
    w.put(b'\n');
}

// A line for each number of a row.
fn each_line(w: &mut Writer, row: &[u8])
    requires { w.old.at + 21 * length row.now ≤ far }
    ensures puts { Puts w.old (lines row.now) w.new }
    ensures upper_bound { w.new.at ≤ w.old.at + 21 * length row.now }
{
    for n in row {
        line(w, usize::from(*n));
    }
}

// The three lines of a mark.
fn mark_lines(w: &mut Writer, figures: Record)
    requires { w.old.at + 63 ≤ far }
    ensures puts { Puts w.old (line figures.turns ++ (line figures.bytes ++ line figures.longest)) w.new }
    ensures upper_bound { w.new.at ≤ w.old.at + 63 }
{
    line(w, figures.turns as usize);
    line(w, figures.bytes as usize);
    line(w, figures.longest as usize);
}

// Those of each mark.
fn each_mark(w: &mut Writer, figures: &[Record])
    requires { w.old.at + 63 * length figures.now ≤ far }
    ensures puts { Puts w.old (mark_lines figures.now) w.new }
    ensures upper_bound { w.new.at ≤ w.old.at + 63 * length figures.now }
{
    for of_mark in figures {
        mark_lines(w, *of_mark);
    }
}

// Turns tonight less turns last night, with a sign; 0 has none.
fn change(w: &mut Writer, tonight: u64, last: u64)
    requires { w.old.at + 22 ≤ far }
    ensures puts { Puts w.old (change tonight last) w.new }
    ensures upper_bound { w.new.at ≤ w.old.at + 22 }
{
    if tonight < last {
        w.put(b'-');
        line(w, (last - tonight) as usize);
    } else if last < tonight {
        w.put(b'+');
        line(w, (tonight - last) as usize);
    } else {
        line(w, 0);
    }
}

// That of each mark.
fn each_change(w: &mut Writer, figures: &[Record], last: &[u64])
    requires each_last { length last.now ≡ length figures.now }
    requires fits { w.old.at + 22 * length last.now ≤ far }
    ensures { Puts w.old (change_lines figures.now last.now) w.new }
{
    for (tonight, before) in figures.iter().zip(last) {
        change(w, tonight.turns, *before);
    }
}

// The three sections, each after its count.
pub fn text(numbers: &[u8], figures: &[Record], last: &[u64], sheet: &mut [u8]) -> usize
    requires few_marks { length figures.now ≤ mark_limit }
    requires each_last { length last.now ≡ length figures.now }
    requires few_numbers { length numbers.now ≤ report_limit }
    ensures { Wrote sheet.old 0 (sheet_text numbers.now figures.now last.now) sheet.new result }
{
    let mut w = Writer::new(sheet);
    line(&mut w, numbers.len());
    each_line(&mut w, numbers);
    line(&mut w, figures.len());
    each_mark(&mut w, figures);
    line(&mut w, figures.len());
    each_change(&mut w, figures, last);
    w.len()
}
