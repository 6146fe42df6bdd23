// The pattern reader: which number answers a pattern, and the read pattern.
#![tactic(auto)]

ghost use Rattle.std.specs.Prelude.{◌≡◌, ◌+◌, ◌≤◌, length};
ghost use Rattle.meaning.specs.Limits.{pattern_limit, nesting_limit};
ghost use Rattle.meaning.specs.ReadPattern.{no_parts};
ghost use Rattle.meaning.specs.Promise.{Read};
ghost use Rattle.grammar.specs.Contract.{Fails};
ghost use Rattle.pattern.specs.Answers.{refusal_number, refusal_value, number_of, value_of, parts_of, WithFours, Answers, Blank, answer_of, Fills};

pub use kinds::ReadPattern;
use letters::Misplaced;
use nodes::Cursor;

mod letters;
mod nodes;
mod parts;
mod scan;

// The limits.
pub const PATTERN_LIMIT: usize = 512;

pub const NESTING_LIMIT: u16 = 64;

pub const POSITION_LIMIT: u16 = 64;

pub const MARK_LIMIT: u16 = 64;

// Why a pattern is refused; the place of the mistake.
#[derive(Clone, Copy, PartialEq, Eq, Debug)]
pub enum Refusal {
    TooLong,
    NoPattern(usize),
    TooDeep,
    ManyPositions,
    ManyMarks,
}

impl Refusal {
    pub fn number(self) -> u32
        ensures { result ≡ refusal_number self }
    {
        match self {
            Refusal::TooLong => 1,
            Refusal::NoPattern(_) => 4,
            Refusal::TooDeep => 5,
            Refusal::ManyPositions => 6,
            Refusal::ManyMarks => 7,
        }
    }

    pub fn value(self) -> usize
        ensures { result ≡ refusal_value self }
    {
        match self {
            Refusal::NoPattern(place) => place,
            _ => 0,
        }
    }
}

// The number of an answer, and its value.
pub fn number(reading: &Result<ReadPattern, Refusal>) -> u32
    ensures { result ≡ number_of reading.now }
{
    match reading {
        Ok(_) => 0,
        Err(refusal) => refusal.number(),
    }
}

pub fn value(reading: &Result<ReadPattern, Refusal>) -> usize
    ensures { result ≡ value_of reading.now }
{
    match reading {
        Ok(_) => 0,
        Err(refusal) => refusal.value(),
    }
}

// Why a pattern was not read: it is none, or it is too deep.
fn wrong(pattern: &[u8]) -> Refusal
    requires { (length pattern.now ≤ pattern_limit) × Fails pattern.now (nesting_limit + 1) }
    ensures { Read pattern.now (refusal_number result) (refusal_value result) no_parts }
{
    match scan::scan(pattern) {
        Ok(()) => Refusal::TooDeep,
        Err(Misplaced(place)) => Refusal::NoPattern(place),
    }
}

// Reads a pattern into rows of zeros. Where it is refused, what stands in `read` is left open.
fn filled(pattern: &[u8], read: &mut ReadPattern) -> Result<(), Refusal>
    requires { Blank read.old }
    ensures { Answers pattern.now (answer_of result read.new) }
{
    if PATTERN_LIMIT < pattern.len() {
        return Err(Refusal::TooLong);
    }
    let Some(end) = parts::list(pattern, read, Cursor::start(), NESTING_LIMIT) else {
        return Err(wrong(pattern));
    };
    let at = end.at as usize;
    if at < pattern.len() {
        return Err(Refusal::NoPattern(at));
    }
    if POSITION_LIMIT < end.positions {
        return Err(Refusal::ManyPositions);
    }
    if MARK_LIMIT < end.marks {
        return Err(Refusal::ManyMarks);
    }
    let used = end.used as usize;
    nodes::number(&mut read.node, used - 1, 0);
    read.nodes = used;
    read.positions = end.positions as usize;
    read.marks = end.marks as usize;
    Ok(())
}

// Reads a pattern into rows of zeros. Where it is refused, the figures are zero, and what stands in the rows is left open.
pub fn fill(pattern: &[u8], read: &mut ReadPattern) -> Result<(), Refusal>
    requires { Blank read.old }
    ensures { Fills pattern.now result read.new }
{
    match filled(pattern, read) {
        Ok(()) => Ok(()),
        Err(why) => {
            read.nodes = 0;
            read.positions = 0;
            read.marks = 0;
            Err(why)
        }
    }
}

pub fn read(pattern: &[u8]) -> Result<ReadPattern, Refusal>
    ensures read { Read pattern.now (number_of result) (value_of result) (parts_of result) }
    ensures fours { WithFours result }
{
    let mut read = ReadPattern::blank();
    fill(pattern, &mut read)?;
    Ok(read)
}
