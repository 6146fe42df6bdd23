// Which positions a node may begin with, and where its positions end.
ghost use Rattle.std.specs.Prelude.{◌≡◌, ℕ, length};
ghost use Rattle.kinds.specs.Nodes.{kind_of, kinds_of, args_of};
ghost use Rattle.sets.specs.Members.{has, rows, row};
ghost use Rattle.walks.specs.Tables.{Held, Walked, Known, number, NullAt, FirstAt, EndAt, two_first, two_end};

use kinds::{Node, ReadPattern};
use sets::set::Set;

// Of a node with two parts, which begin with x and y, where n says whether the left one may be passed: a cat begins with x
// alone if not.
#[tactic(auto, unfolding(crate::specs::Tables::two_first))]
fn first_two(node: Node, n: bool, x: Set, y: Set) -> Set
    ensures { (q : ℕ) → has result q ≡ two_first (kind_of node) n (has x q) (has y q) }
{
    if n || matches!(node, Node::Alt(_)) {
        x.union(y)
    } else {
        x
    }
}

// Of a node with two parts, whose positions end at x and y.
#[tactic(auto, unfolding(crate::specs::Tables::two_end))]
fn end_two(x: u16, y: u16) -> u16
    ensures { result ≡ two_end x y }
{
    if y == 0 { x } else { y }
}

// Fills, for the nodes of the part at node i, `first` with the positions that a node may begin with, and `upto` with one past the last
// of its positions, 0 where it has none.
pub fn opens_first(
    pattern: &ReadPattern,
    null: &[u8; 1024],
    first: &mut [Set; 1024],
    upto: &mut [u16; 1024],
    i: usize,
)
    requires held { Held (kinds_of pattern.now.node) (args_of pattern.now.node) i }
    requires known { Known number (NullAt (kinds_of pattern.now.node) (args_of pattern.now.node)) null.now i }
    ensures walked_first { Walked rows row (FirstAt (kinds_of pattern.now.node) (args_of pattern.now.node))
        (kinds_of pattern.now.node) (args_of pattern.now.node) i first.old first.new }
    ensures long { rows first.new ≡ 1024 }
    ensures walked_upto { Walked length number (EndAt (kinds_of pattern.now.node) (args_of pattern.now.node))
        (kinds_of pattern.now.node) (args_of pattern.now.node) i upto.old upto.new }
{
    match pattern.node[i] {
        Node::Eps(_) | Node::Other(..) => {
            first[i] = Set::empty();
            upto[i] = 0;
        }
        Node::Pos(q) => {
            first[i] = Set::of(q as usize);
            upto[i] = q + 1;
        }
        Node::Cat(left) | Node::Alt(left) => {
            let left = left as usize;
            let right = i - 1;
            opens_first(pattern, null, first, upto, left);
            opens_first(pattern, null, first, upto, right);
            first[i] = first_two(pattern.node[i], null[left] != 0, first[left], first[right]);
            upto[i] = end_two(upto[left], upto[right]);
        }
        Node::Branch(_) | Node::Star(_) | Node::Plus(_) | Node::Opt(_) => {
            opens_first(pattern, null, first, upto, i - 1);
            first[i] = first[i - 1];
            upto[i] = upto[i - 1];
        }
    }
}
