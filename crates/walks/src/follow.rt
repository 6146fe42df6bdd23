// Which positions may follow a position, and which may be the last.
ghost use Rattle.std.specs.Prelude.{◌≡◌, ◌&&◌, ◌||◌, ℕ, ◌<◌, get_or};
ghost use Rattle.kinds.specs.Nodes.{kinds_of, args_of};
ghost use Rattle.sets.specs.Members.{has, limit, rows, row};
ghost use Rattle.walks.specs.Tables.{Held, yes};
ghost use Rattle.walks.specs.Enter.{Scanned};
ghost use Rattle.walks.specs.Follow.{FollowsAt};

use crate::guide::Guide;
use crate::tables::Openings;
use kinds::Node;
use sets::set::Set;

// What may come where node j is next and then what `after` has: a first position of node j, and what comes after it if j may be passed.
fn coming(opens: &Openings, j: usize, after: Set) -> Set
    requires { (j < rows opens.now.first) × (j < 1024) }
    ensures { (q : ℕ) → has result q ≡ (has (row opens.now.first j) q || (yes (get_or opens.now.null j 0) && has after q)) }
{
    let firsts = opens.first[j];
    if opens.null[j] != 0 {
        firsts.union(after)
    } else {
        firsts
    }
}

impl Guide<'_> {
    // Fills `follow` at the positions of node i with the positions that may follow each, where `after` may come after the node and, if
    // `end`, the end of the text; hands back `ends` with the positions of node i that may be the last.
    pub fn may_follow(
        self,
        follow: &mut [Set; 64],
        i: usize,
        after: Set,
        end: bool,
        ends: Set,
    ) -> Set
        requires held { Held (kinds_of self.pattern.now.node) (args_of self.pattern.now.node) i }
        requires scanned { Scanned (kinds_of self.pattern.now.node) (args_of self.pattern.now.node) self.opens.now.null self.opens.now.first i }
        ensures long { rows follow.new ≡ limit }
        ensures follows { FollowsAt (kinds_of self.entry.pattern.now.node) (args_of self.entry.pattern.now.node) i after end follow.old follow.new ends result }
    {
        match self.pattern.node[i] {
            Node::Eps(_) | Node::Other(..) => ends,
            Node::Pos(q) => {
                follow[q as usize] = after;
                if end { ends.with(q as usize) } else { ends }
            }
            Node::Cat(left) => {
                let right = i - 1;
                let next = coming(self.opens, right, after);
                let last = self.opens.null[right] != 0 && end;
                let seen = self.may_follow(follow, left as usize, next, last, ends);
                self.may_follow(follow, right, after, end, seen)
            }
            Node::Alt(left) => {
                let seen = self.may_follow(follow, left as usize, after, end, ends);
                self.may_follow(follow, i - 1, after, end, seen)
            }
            Node::Star(_) | Node::Plus(_) => {
                let next = self.opens.first[i - 1].union(after);
                self.may_follow(follow, i - 1, next, end, ends)
            }
            Node::Branch(_) | Node::Opt(_) => { self.may_follow(follow, i - 1, after, end, ends) }
        }
    }
}
