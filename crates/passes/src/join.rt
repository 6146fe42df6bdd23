// Joining rows of a table of sets.
ghost use Rattle.std.specs.Prelude.{◌≤◌, ◌<◌};
ghost use Rattle.sets.specs.Members.{limit, rows};
ghost use Rattle.passes.specs.Ways.{Listed};

use sets::set::Set;

// Position q joins the row of each member of s.
pub fn join(table: &mut [Set], s: Set, q: usize)
    requires { (limit ≤ rows table.old) × (q < limit) }
    ensures { Listed s q table.old table.new }
{
    let mut left = s;
    while let Some(p) = left.pop_first() {
        table[p] = table[p].with(q);
    }
}
