// What is refused of a night before a report is looked at.
ghost use Rattle.std.specs.Prelude.{◌≡◌, eqb};
ghost use Rattle.meaning.specs.Night.{sum, greatest};
ghost use Rattle.sheet.specs.Checks.{Objects};

use crate::figures::Refusal;

// Reports of a night.
const REPORT_LIMIT: usize = 1000;

// Turns of a mark last night.
const LAST_LIMIT: u64 = 4096000;

// Do the lengths add up to n? They are taken from it one by one, so that no sum can be too great.
fn add_up(lengths: &[u64], n: usize) -> bool
    ensures { result ≡ eqb (sum lengths.now) n }
{
    let mut left = n as u64;
    for length in lengths {
        let Some(rest) = left.checked_sub(*length) else {
            return false;
        };
        left = rest;
    }
    left == 0
}

// The greatest number of a row; 0, where it has none.
fn greatest(row: &[u64]) -> u64
    ensures { result ≡ greatest row.now }
{
    row.iter().copied().max().unwrap_or(0)
}

// The first refusal of a night that applies, where the pattern has so many marks and the table so many records.
pub fn objection(
    lengths: &[u64],
    n: usize,
    last: &[u64],
    records: usize,
    marks: usize,
) -> Result<(), Refusal>
    ensures { Objects lengths.now n last.now records marks result }
{
    if REPORT_LIMIT < lengths.len() || !add_up(lengths, n) {
        return Err(Refusal::WrongLengths);
    }
    if records != marks || last.len() != marks {
        return Err(Refusal::WrongMarks);
    }
    if LAST_LIMIT < greatest(last) {
        return Err(Refusal::MuchLast);
    }
    Ok(())
}
