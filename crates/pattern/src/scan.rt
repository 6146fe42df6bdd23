// A flat scan: whether a whole row is a pattern, limits set aside. It counts the open groups, and makes no nodes.
ghost use Rattle.std.specs.Prelude.{◌≡◌, ◌+◌, ◌^◌, ◌<◌, length};
ghost use Rattle.grammar.specs.Flat.{ends_branch, ends_group, takes_sign};
ghost use Rattle.pattern.specs.Flat.{last_of, reach_at, Reaches, LetterDue, Turned, Ended, Scanned};

use super::letters;
use super::letters::Misplaced;
use super::parts::sign;

// What stands before the place of the scan in the innermost list.
#[derive(Clone, Copy)]
pub enum Behind {
    Nothing,
    Bar,
    Item,
    Atom,
}

impl Behind {
    // Whether a branch can end there.
    fn ends_branch(self) -> bool
        ensures { ends_branch (last_of self) ≡ result }
    {
        matches!(self, Behind::Item | Behind::Atom)
    }

    // Whether a group can end there.
    fn ends_group(self) -> bool
        ensures { ends_group (last_of self) ≡ result }
    {
        !matches!(self, Behind::Bar)
    }

    // Whether a sign can stand there.
    fn takes_sign(self) -> bool
        ensures { takes_sign (last_of self) ≡ result }
    {
        matches!(self, Behind::Atom)
    }
}

// How far the scan is: the place, how many groups are open there, and what stands before it in the innermost list.
#[derive(Clone, Copy)]
pub struct Reach {
    pub at: usize,
    pub groups: usize,
    pub behind: Behind,
}

impl Reach {
    // One byte on.
    fn past(self, groups: usize, behind: Behind) -> Reach
        requires { self.at + 1 < 2 ^ 64 }
        ensures { result ≡ reach_at (self.at + 1) groups behind }
    {
        Reach {
            at: self.at + 1,
            groups,
            behind,
        }
    }
}

// A turn over an atom that is no group.
fn lettered(p: &[u8], c: Reach) -> Result<Reach, Misplaced>
    requires { Reaches p.now c × (c.at < length p.now) × LetterDue p.now c.at }
    ensures { Turned p.now c.at result }
{
    let letter = letters::letter(p, c.at)?;
    Ok(Reach {
        at: letter.next,
        behind: Behind::Atom,
        ..c
    })
}

// One turn: over a byte, or over an atom that is no group. How far the scan is then.
fn step(p: &[u8], c: Reach) -> Result<Reach, Misplaced>
    requires { Reaches p.now c × (c.at < length p.now) }
    ensures { Turned p.now c.at result }
{
    let groups = c.groups;
    match p[c.at] {
        b'(' => Ok(c.past(groups + 1, Behind::Nothing)),
        b')' => {
            if groups == 0 || !c.behind.ends_group() {
                return Err(Misplaced(c.at));
            }
            Ok(c.past(groups - 1, Behind::Atom))
        }
        b'|' => {
            if !c.behind.ends_branch() {
                return Err(Misplaced(c.at));
            }
            Ok(c.past(groups, Behind::Bar))
        }
        _ => {
            if sign(p, c.at).is_none() {
                return lettered(p, c);
            }
            if !c.behind.takes_sign() {
                return Err(Misplaced(c.at));
            }
            Ok(c.past(groups, Behind::Item))
        }
    }
}

// Whether a row that ends where the scan is is a pattern.
fn ended(c: Reach) -> Result<(), Misplaced>
    ensures { Ended c result }
{
    if c.groups == 0 && c.behind.ends_branch() {
        Ok(())
    } else {
        Err(Misplaced(c.at))
    }
}

// Whether the whole row is a pattern, limits set aside, or the place that is bad.
pub fn scan(p: &[u8]) -> Result<(), Misplaced>
    ensures { Scanned p.now result }
{
    let mut c = Reach {
        at: 0,
        groups: 0,
        behind: Behind::Nothing,
    };
    while c.at < p.len() {
        c = step(p, c)?;
    }
    ended(c)
}
