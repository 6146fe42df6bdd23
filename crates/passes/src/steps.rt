// One step over a table of sets, whose row q has the positions that may come after q, or those that may come before it.
ghost use Rattle.std.specs.Prelude.{◌≡◌, ℕ, ◌≤◌};
ghost use Rattle.sets.specs.Members.{has, limit, rows};
ghost use Rattle.passes.specs.Ways.{joined};

use sets::set::Set;

// What the rows of the members of s have.
pub fn after(table: &[Set], s: Set) -> Set
    requires { limit ≤ rows table.now }
    ensures { (q : ℕ) → has result q ≡ joined table.now (has s) q }
{
    let mut found = Set::empty();
    let mut left = s;
    while let Some(q) = left.pop_first() {
        let row = table[q];
        found = found.union(row);
    }
    found
}
