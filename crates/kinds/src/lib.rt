// A read pattern, as a row of nodes.
#![tactic(auto)]

ghost use Rattle.std.specs.Prelude.{◌≡◌, ◌≤◌, ◌<◌, replicate};
ghost use Rattle.kinds.specs.Nodes.{kind_of, arg_of, kinds_of, args_of};
ghost use Rattle.kinds.specs.Words.{no_byte};

use sets::class::Class;

// A node of a read pattern: a node without parts is an eps or a pos, one with two parts a cat or an alt, one with one part a branch, star, plus or
// opt. Beside it stands a number: the position, the node of the left part, or the mark; beside an eps it says nothing. The other part is the node
// before. `Other` is in no pattern. It is a kind past 7, as its number less 8: where no node of a pattern stands, a row that is lent may hold it.
#[derive(Clone, Copy, PartialEq, Eq)]
pub enum Node {
    Eps(u16),
    Pos(u16),
    Cat(u16),
    Alt(u16),
    Branch(u16),
    Star(u16),
    Plus(u16),
    Opt(u16),
    Other(u8, u16),
}

impl Node {
    // The same node with this mark; a node without a mark stays as it is.
    pub fn with_mark(self, mark: u16) -> Node
        ensures kind { kind_of result ≡ kind_of self }
        ensures arg { 4 ≤ kind_of self → arg_of result ≡ mark }
        ensures unmarked { kind_of self < 4 → result ≡ self }
    {
        match self {
            Node::Branch(_) => Node::Branch(mark),
            Node::Star(_) => Node::Star(mark),
            Node::Plus(_) => Node::Plus(mark),
            Node::Opt(_) => Node::Opt(mark),
            Node::Other(past, _) => Node::Other(past, mark),
            _ => self,
        }
    }
}

// The class of position q is class[q].
#[derive(Clone, Copy, PartialEq, Eq)]
pub struct ReadPattern {
    pub node: [Node; 1024],
    pub class: [Class; 64],
    pub nodes: usize,
    pub positions: usize,
    pub marks: usize,
}

impl ReadPattern {
    // Nodes that are eps, classes with no byte, and none of them in use.
    pub fn blank() -> ReadPattern
        ensures kinds { kinds_of result.node ≡ replicate 1024 0 }
        ensures args { args_of result.node ≡ replicate 1024 0 }
        ensures classes { result.class ≡ replicate 64 no_byte }
        ensures nodes { result.nodes ≡ 0 }
        ensures positions { result.positions ≡ 0 }
        ensures marks { result.marks ≡ 0 }
    {
        ReadPattern {
            node: [Node::Eps(0); 1024],
            class: [Class::none(); 64],
            nodes: 0,
            positions: 0,
            marks: 0,
        }
    }
}
