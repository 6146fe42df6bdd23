// What an answer of the first tree says: its number, its value and its flag.
ghost use Rattle.std.specs.Prelude.{◌≡◌, Err};
ghost use Rattle.tree.specs.declared.outcome.Refusal.TheVariants.{Pattern};
ghost use Rattle.tree.specs.Outcome.{refusal_number, refusal_value, number_of, value_of, flag_of};

pub use along::walk::Tree;

// Why there is no tree to hand out: the pattern is refused, the text is too long, the cells are too few, no tree exists, or the room does
// not hold its row. Beside the last two stand the place up to which the text can be read, and the length of the row.
#[derive(Clone, Copy, PartialEq, Eq, Debug)]
pub enum Refusal {
    Pattern(pattern::Refusal),
    LongText,
    FewCells,
    NoTree(usize),
    SmallRoom(usize),
}

pub type Outcome = Result<Tree, Refusal>;

impl From<pattern::Refusal> for Refusal {
    ghost from_gives = { λ why refusal. refusal ≡ Pattern why };

    fn from(why: pattern::Refusal) -> Refusal {
        Refusal::Pattern(why)
    }
}

impl Refusal {
    pub fn number(self) -> u32
        ensures { result ≡ refusal_number self }
    {
        match self {
            Refusal::Pattern(why) => why.number(),
            Refusal::LongText => 2,
            Refusal::FewCells => 3,
            Refusal::NoTree(_) => 8,
            Refusal::SmallRoom(_) => 9,
        }
    }

    pub fn value(self) -> usize
        ensures { result ≡ refusal_value self }
    {
        match self {
            Refusal::Pattern(why) => why.value(),
            Refusal::NoTree(place) => place,
            Refusal::SmallRoom(length) => length,
            _ => 0,
        }
    }
}

// The number of the line in the table of answers.
pub fn number(o: Outcome) -> u32
    ensures { result ≡ number_of o }
{
    match o {
        Ok(_) => 0,
        Err(refusal) => refusal.number(),
    }
}

pub fn value(o: Outcome) -> usize
    ensures { result ≡ value_of o }
{
    match o {
        Ok(tree) => tree.length,
        Err(refusal) => refusal.value(),
    }
}

pub fn flag(o: Outcome) -> usize
    ensures { result ≡ flag_of o }
{
    match o {
        Ok(tree) => usize::from(tree.other),
        Err(_) => 0,
    }
}
