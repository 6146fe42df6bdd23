// The walk on from a position of a part: to a position of the goal or past the part, by the first way.
ghost use Rattle.std.specs.Prelude.{◌+◌, ◌<◌, ◌≤◌};
ghost use Rattle.kinds.specs.Nodes.{kinds_of, args_of};
ghost use Rattle.walks.specs.Tables.{Known, number, EndAt};
ghost use Rattle.walks.specs.Steps.{cursor};
ghost use Rattle.walks.specs.Enter.{Ready, Scanned};
ghost use Rattle.walks.specs.Resume.{Placed, ResumesAt, AgainAt, WhetherRight, Holder};

use crate::guide::Guide;
use crate::step::{Step, put};
use kinds::Node;
use sets::set::Set;

impl Guide<'_> {
    // After the step s out of the part at node i, where that passed: closes the turn, and makes another where it leads to the goal.
    fn again(self, i: usize, mark: u16, goal: Set, pass: bool, tree: &mut [u16], s: Step) -> Step
        requires ready { Ready (kinds_of self.pattern.now.node) (args_of self.pattern.now.node) i (cursor s + 1 + 1) × (mark < 128) }
        requires scanned { Scanned (kinds_of self.pattern.now.node) (args_of self.pattern.now.node) self.opens.now.null self.opens.now.first i }
        ensures { AgainAt (kinds_of self.entry.pattern.now.node) (args_of self.entry.pattern.now.node) i mark goal pass tree.old tree.new s result }
    {
        match s {
            Step::Passed(at, other) => {
                let b = put(tree, at, 128 + mark);
                self.turn(i, mark, goal, pass, tree, b).also(other)
            }
            Step::Stopped(..) => s,
        }
    }

    // Is node n one with two parts, and position j in the right one?
    fn is_right(self, n: usize, j: usize) -> bool
        requires { Placed (kinds_of self.pattern.now.node) (args_of self.pattern.now.node) n j 0 }
        ensures { WhetherRight (kinds_of self.entry.pattern.now.node) (args_of self.entry.pattern.now.node) self.entry.opens.now.upto n j result }
    {
        match self.pattern.node[n] {
            Node::Cat(left) | Node::Alt(left) => self.opens.upto[left as usize] as usize <= j,
            _ => false,
        }
    }

    // From node i on to the right part, as long as position j is in it: nothing is written on that way.
    fn holder(self, i: usize, j: usize) -> usize
        requires placed { Placed (kinds_of self.pattern.now.node) (args_of self.pattern.now.node) i j 0 }
        requires known { Known number (EndAt (kinds_of self.pattern.now.node) (args_of self.pattern.now.node)) self.opens.now.upto i }
        ensures holder { Holder (kinds_of self.entry.pattern.now.node) (args_of self.entry.pattern.now.node) self.entry.opens.now.upto i j result }
        ensures below { result ≤ i }
    {
        let mut n = i;
        while self.is_right(n, j) {
            n -= 1;
        }
        n
    }

    // Goes on in node i from its position j, which was just read, on the way to a position of the goal or, if `pass`, past the node, and
    // writes the marks on the way from `at` on.
    pub fn resume(
        self,
        i: usize,
        j: usize,
        goal: Set,
        pass: bool,
        tree: &mut [u16],
        at: usize,
    ) -> Step
        requires placed { Placed (kinds_of self.pattern.now.node) (args_of self.pattern.now.node) i j at }
        requires scanned { Scanned (kinds_of self.pattern.now.node) (args_of self.pattern.now.node) self.opens.now.null self.opens.now.first i }
        requires known { Known number (EndAt (kinds_of self.pattern.now.node) (args_of self.pattern.now.node)) self.opens.now.upto i }
        ensures { ResumesAt (kinds_of self.entry.pattern.now.node) (args_of self.entry.pattern.now.node) i j goal pass tree.old tree.new at result }
    {
        let n = self.holder(i, j);
        match self.pattern.node[n] {
            Node::Eps(_) | Node::Pos(_) | Node::Other(..) => Step::Passed(at, false),
            Node::Cat(left) => {
                let right = n - 1;
                let more = self.opens.open_to(right, goal, pass);
                let s = self.resume(left as usize, j, goal, more, tree, at);
                self.on(right, goal, pass, tree, s)
            }
            Node::Alt(left) => self.resume(left as usize, j, goal, pass, tree, at),
            Node::Star(mark) | Node::Plus(mark) => {
                let part = n - 1;
                let more = self.opens.goes_or(part, goal, pass);
                let s = self.resume(part, j, goal, more, tree, at);
                self.again(part, mark, goal, pass, tree, s)
            }
            Node::Branch(mark) | Node::Opt(mark) => {
                let s = self.resume(n - 1, j, goal, pass, tree, at);
                s.close(tree, mark)
            }
        }
    }
}
