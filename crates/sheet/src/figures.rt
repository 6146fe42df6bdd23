// What a night comes to: the answer, and the figures of each mark. Those of mark h stand at place h - 1.
ghost use Rattle.std.specs.Prelude.{◌≡◌};
ghost use Rattle.sheet.specs.declared.figures.Refusal.TheVariants.{Pattern};
ghost use Rattle.sheet.specs.Answers.{refusal_number, refusal_value, number_of, value_of};

use meaning::Record;

// Why there is no sheet: the pattern is refused, little is lent, the lengths do not fit the reports, the records or the turns of last night
// do not fit the marks of the pattern, or last night had too many turns.
#[derive(Clone, Copy, PartialEq, Eq, Debug)]
pub enum Refusal {
    Pattern(pattern::Refusal),
    LittleLent,
    WrongLengths,
    WrongMarks,
    MuchLast,
}

// The length of the sheet.
pub type Answer = Result<usize, Refusal>;

// A sheet that is written: how long it is, and the figures that it tells.
#[derive(Clone, Copy)]
pub struct Made {
    pub length: usize,
    pub figures: [Record; 64],
}

impl From<pattern::Refusal> for Refusal {
    ghost from_gives = { λ why refusal. refusal ≡ Pattern why };

    fn from(why: pattern::Refusal) -> Refusal {
        Refusal::Pattern(why)
    }
}

impl Refusal {
    pub fn number(self) -> u32
        ensures { result ≡ refusal_number self }
    {
        match self {
            Refusal::Pattern(why) => why.number(),
            Refusal::LittleLent => 3,
            Refusal::WrongLengths => 12,
            Refusal::WrongMarks => 13,
            Refusal::MuchLast => 14,
        }
    }

    pub fn value(self) -> usize
        ensures { result ≡ refusal_value self }
    {
        match self {
            Refusal::Pattern(why) => why.value(),
            _ => 0,
        }
    }
}

// The number of the line in the table of answers.
pub fn number(a: Answer) -> u32
    ensures { result ≡ number_of a }
{
    match a {
        Ok(_) => 0,
        Err(refusal) => refusal.number(),
    }
}

// The length of the sheet, or the place of the mistake.
pub fn value(a: Answer) -> usize
    ensures { result ≡ value_of a }
{
    match a {
        Ok(length) => length,
        Err(refusal) => refusal.value(),
    }
}
