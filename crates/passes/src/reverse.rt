// A table of sets the other way round: from those that may come after a position, those that may come before it.
ghost use Rattle.std.specs.Prelude.{◌≤◌};
ghost use Rattle.sets.specs.Members.{limit, rows};
ghost use Rattle.passes.specs.Ways.{Reversed};

use crate::join::join;
use sets::set::{LIMIT, Set};

// Each position joins the rows of those that may come after it.
pub fn reverse(follow: &[Set], pre: &mut [Set; 64])
    requires { (limit ≤ rows follow.now) × (limit ≤ rows pre.old) }
    ensures { Reversed follow.now limit pre.old pre.new }
{
    for q in 0..LIMIT {
        join(pre, follow[q], q);
    }
}
