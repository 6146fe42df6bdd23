// A night, printed and made into a sheet.
use meaning::Record;
use sheet::figures::Made;
use sheet::make::make;
use std::io;
use tree::room::CELLS;

// What is lent: enough for a row of 16 tokens.
const TOKENS: usize = 16;

const SHEET: usize = 8192;

fn numbers(rt: &impl Print, label: &str, row: &[u64]) -> io::Result<()> {
    print!(rt; ", {label} [")?;
    for n in row {
        print!(rt; " {n}")?;
    }
    print!(rt; " ]")
}

fn record(rt: &impl Print, figures: &Record) -> io::Result<()> {
    println!(rt;
        "RECORD {} {} {}",
        figures.turns, figures.bytes, figures.longest
    )
}

// A sheet that stands at the front of these bytes, and the figures of the first n marks.
fn show(rt: &impl Print, made: &Made, n: usize, sheet: &[u8]) -> io::Result<()> {
    println!(rt; "SHEET 0 {}", made.length)?;
    if let Some(text) = sheet.get(..made.length) {
        rt.write_all(text)?;
    }
    for figures in made.figures.iter().take(n) {
        record(rt, figures)?;
    }
    Ok(())
}

// With a table of n records.
pub fn night(
    rt: &impl Print,
    pattern: &str,
    reports: &str,
    lengths: &[u64],
    last: &[u64],
    n: usize,
) -> io::Result<()> {
    print!(rt; "a night of \"{pattern}\" on \"{reports}\"")?;
    numbers(rt, "lengths", lengths)?;
    numbers(rt, "last night", last)?;
    println!(rt; ", records {n}")?;
    let mut sheet = [0u8; SHEET];
    match make(
        pattern.as_bytes(),
        reports.as_bytes(),
        lengths,
        last,
        n,
        &mut [0; CELLS],
        &mut [0; TOKENS],
        &mut sheet,
    ) {
        Ok(made) => show(rt, &made, n, &sheet),
        Err(refusal) => println!(rt; "SHEET {} {}", refusal.number(), refusal.value()),
    }
}
