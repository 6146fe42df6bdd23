// The cursor, which says how much of a pattern is read and of a read pattern is written, and what it writes there.
ghost use Rattle.std.specs.Prelude.{◌≡◌, ◌+◌, ◌-◌, ◌<◌, ◌≤◌, length};
ghost use Rattle.kinds.specs.Nodes.{kind_of, arg_of, kinds_of, args_of};
ghost use Rattle.pattern.specs.Stores.{stores, Became, Put, Keeps, Numberable, Numbers};
ghost use Rattle.pattern.specs.Parts.{WhetherAt, Going};

use super::letters::stands;
use kinds::{Node, ReadPattern};
use sets::class::Class;

// The place in the pattern, and how many nodes, positions and marks there are. All are small, and a branch that goes on keeps one of these.
#[derive(Clone, Copy)]
pub struct Cursor {
    pub at: u16,
    pub used: u16,
    pub positions: u16,
    pub marks: u16,
}

impl Cursor {
    pub fn start() -> Cursor
        ensures { Became result 0 0 0 0 }
    {
        Cursor {
            at: 0,
            used: 0,
            positions: 0,
            marks: 0,
        }
    }

    // Whether the byte b stands there.
    pub fn stands(self, p: &[u8], b: u8) -> bool
        ensures { WhetherAt p.now self.at b result }
    {
        stands(p, self.at as usize, b)
    }

    // Whether an item can start there: there is a byte, and it ends no branch.
    pub fn goes_on(self, p: &[u8]) -> bool
        ensures { Going p.now self.at result }
    {
        !matches!(p.get(self.at as usize), None | Some(b'|' | b')'))
    }

    // One byte on.
    pub fn past(self) -> Cursor
        requires { self.at < 1024 }
        ensures { Became result (self.at + 1) self.used self.positions self.marks }
    {
        Cursor {
            at: self.at + 1,
            ..self
        }
    }

    // The node of `()`.
    pub fn empty(self, read: &mut ReadPattern) -> Cursor
        requires { (self.used < 1024) × (self.at < 1024) }
        ensures became { Became result (self.at + 2) (self.used + 1) self.positions self.marks }
        ensures put { Put self.used 0 0 (stores read.old) (stores read.new) }
    {
        put(read, self.used, Node::Eps(0));
        Cursor {
            at: self.at + 2,
            used: self.used + 1,
            ..self
        }
    }

    // The node of a position, for the bytes up to `next`; its class is kept by itself.
    pub fn position(self, read: &mut ReadPattern, next: u16) -> Cursor
        requires { (self.used < 1024) × (self.positions < 1024) }
        ensures became { Became result next (self.used + 1) (self.positions + 1) self.marks }
        ensures put { Put self.used 1 self.positions (stores read.old) (stores read.new) }
    {
        put(read, self.used, Node::Pos(self.positions));
        Cursor {
            at: next,
            used: self.used + 1,
            positions: self.positions + 1,
            ..self
        }
    }

    // A node with a mark over what was read last, for the bytes up to `next`; the mark's number comes later.
    pub fn marked(self, read: &mut ReadPattern, next: u16, node: Node) -> Cursor
        requires { (self.used < 1024) × (self.marks < 1024) }
        ensures became { Became result next (self.used + 1) self.positions (self.marks + 1) }
        ensures put { Put self.used (kind_of node) (arg_of node) (stores read.old) (stores read.new) }
    {
        put(read, self.used, node);
        Cursor {
            at: next,
            used: self.used + 1,
            marks: self.marks + 1,
            ..self
        }
    }

    // A node over two parts, of which what was read last is the right one.
    pub fn joined(self, read: &mut ReadPattern, node: Node) -> Cursor
        requires { self.used < 1024 }
        ensures became { Became result self.at (self.used + 1) self.positions self.marks }
        ensures put { Put self.used (kind_of node) (arg_of node) (stores read.old) (stores read.new) }
    {
        put(read, self.used, node);
        Cursor {
            used: self.used + 1,
            ..self
        }
    }
}

// Writes node i.
fn put(read: &mut ReadPattern, i: u16, node: Node)
    requires { i < 1024 }
    ensures { Put i (kind_of node) (arg_of node) (stores read.old) (stores read.new) }
{
    read.node[i as usize] = node;
}

// Writes the class of position n, of which 64 are kept.
pub fn keep(class: &mut [Class; 64], n: u16, k: Class)
    ensures { Keeps n k class.old class.new }
{
    if n < super::POSITION_LIMIT {
        // Word by word: a copy of all four at once waits until the last is written.
        class[n as usize] = Class {
            words: [k.words[0], k.words[1], k.words[2], k.words[3]],
        };
    }
}

// Numbers the marks of node i and below, where m marks stand before it; how many stand behind it.
pub fn number(nodes: &mut [Node; 1024], i: usize, m: u16) -> u16
    requires { Numberable (kinds_of nodes.old) (args_of nodes.old) i m }
    ensures kinds { kinds_of nodes.new ≡ kinds_of nodes.old }
    ensures args { Numbers (kinds_of nodes.old) (args_of nodes.old) (args_of nodes.new) i m result }
{
    let node = nodes[i];
    match node {
        Node::Eps(_) | Node::Pos(_) => m,
        Node::Cat(left) | Node::Alt(left) => {
            let n = number(nodes, left as usize, m);
            number(nodes, i - 1, n)
        }
        _ => {
            let mark = m + 1;
            nodes[i] = node.with_mark(mark);
            number(nodes, i - 1, mark)
        }
    }
}
