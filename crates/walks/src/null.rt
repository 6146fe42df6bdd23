// Which nodes may be passed over no text.
ghost use Rattle.std.specs.Prelude.{◌≡◌, length};
ghost use Rattle.kinds.specs.Nodes.{kind_of, kinds_of, args_of};
ghost use Rattle.walks.specs.Tables.{Held, Walked, number, NullAt, one_null, two_null};

use kinds::{Node, ReadPattern};

// Of a node with one part: a star and an opt may, the others as the part.
#[tactic(auto, unfolding(crate::specs::Tables::one_null))]
fn null_one(node: Node, part: bool) -> bool
    ensures { result ≡ one_null (kind_of node) part }
{
    matches!(node, Node::Star(_) | Node::Opt(_)) || part
}

// Of a node with two parts: a cat as both, an alt as either.
#[tactic(auto, unfolding(crate::specs::Tables::two_null))]
fn null_two(node: Node, left: bool, right: bool) -> bool
    ensures { result ≡ two_null (kind_of node) left right }
{
    match node {
        Node::Cat(_) => left && right,
        _ => left || right,
    }
}

// Fills `null` for the nodes of the part at node i: 1 where a node may be passed over no text, else 0.
pub fn may_be_empty(pattern: &ReadPattern, null: &mut [u8; 1024], i: usize)
    requires held { Held (kinds_of pattern.now.node) (args_of pattern.now.node) i }
    ensures { Walked length number (NullAt (kinds_of pattern.now.node) (args_of pattern.now.node))
        (kinds_of pattern.now.node) (args_of pattern.now.node) i null.old null.new }
{
    match pattern.node[i] {
        Node::Eps(_) | Node::Other(..) => null[i] = 1,
        Node::Pos(_) => null[i] = 0,
        Node::Cat(left) | Node::Alt(left) => {
            let left = left as usize;
            let right = i - 1;
            may_be_empty(pattern, null, left);
            may_be_empty(pattern, null, right);
            null[i] = u8::from(null_two(pattern.node[i], null[left] != 0, null[right] != 0));
        }
        Node::Branch(_) | Node::Star(_) | Node::Plus(_) | Node::Opt(_) => {
            let part = i - 1;
            may_be_empty(pattern, null, part);
            null[i] = u8::from(null_one(pattern.node[i], null[part] != 0));
        }
    }
}
