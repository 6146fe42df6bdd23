// A set of positions below the limit, in one word. Contracts speak of members alone, so that a limit of two words moves no caller.
ghost use Rattle.std.specs.Prelude.{◌≡◌, true, false, ◌&&◌, ◌||◌, not, ◌↔◌, ℕ, ◌<◌, eqb, length};
ghost use Rattle.sets.specs.Members.{has, limit, none, vacant, meets, Alike, LeastOf, Popped, row, held, Stored};

// Position p is the bit p.
#[derive(Clone, Copy, PartialEq, Eq)]
pub struct Set {
    pub bits: u64,
}

// Members are below this: `limit` of specs/Members.
pub const LIMIT: usize = 64;

impl Set {
    // The set with no member.
    pub fn empty() -> Set
        ensures members { (q : ℕ) → has result q ≡ false }
        ensures is_none { result ≡ none }
    {
        Set { bits: 0 }
    }

    // The set with the member p alone.
    pub fn of(p: usize) -> Set
        requires { p < limit }
        ensures { (q : ℕ) → has result q ≡ eqb q p }
    {
        Set { bits: 1u64 << p }
    }

    // The set and p.
    pub fn with(self, p: usize) -> Set
        requires { p < limit }
        ensures { (q : ℕ) → has result q ≡ (has self q || eqb q p) }
    {
        Set {
            bits: self.bits | (1u64 << p),
        }
    }

    // The set but for p.
    pub fn without(self, p: usize) -> Set
        requires { p < limit }
        ensures { (q : ℕ) → has result q ≡ (has self q && not (eqb q p)) }
    {
        Set {
            bits: self.bits & !(1u64 << p),
        }
    }

    // What is in one set or the other.
    pub fn union(self, other: Set) -> Set
        ensures { (q : ℕ) → has result q ≡ (has self q || has other q) }
    {
        Set {
            bits: self.bits | other.bits,
        }
    }

    // What is in both.
    pub fn meet(self, other: Set) -> Set
        ensures { (q : ℕ) → has result q ≡ (has self q && has other q) }
    {
        Set {
            bits: self.bits & other.bits,
        }
    }

    // Is there no member?
    pub fn is_empty(self) -> bool
        ensures { result ≡ vacant self }
    {
        self.bits == 0
    }

    // Have both the same members?
    pub fn same(self, other: Set) -> bool
        ensures { (result ≡ true) ↔ Alike self other }
    {
        self == other
    }

    // Is there a member in both?
    pub fn overlaps(self, other: Set) -> bool
        ensures { result ≡ meets self other }
    {
        !self.meet(other).is_empty()
    }

    // The least member.
    pub fn first(self) -> Option<usize>
        ensures { LeastOf self result }
    {
        if self.bits == 0 {
            return None;
        }
        Some(self.bits.trailing_zeros() as usize)
    }

    // Takes the least member out.
    pub fn pop_first(&mut self) -> Option<usize>
        ensures { Popped self.old result self.new }
    {
        let p = self.first()?;
        self.bits &= self.bits - 1;
        Some(p)
    }

    // The set in a cell.
    pub fn load(cells: &[u64], i: usize) -> Set
        requires { i < length cells.now }
        ensures { result ≡ row (held cells.now) i }
    {
        Set { bits: cells[i] }
    }

    // Puts the set into a cell.
    pub fn store(self, cells: &mut [u64], i: usize)
        requires { i < length cells.old }
        ensures { Stored self i (held cells.old) (held cells.new) }
    {
        cells[i] = self.bits;
    }
}
