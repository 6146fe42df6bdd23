// The walk into a part: from its start to a position of the goal or past it, by the first way.
ghost use Rattle.std.specs.Prelude.{◌+◌};
ghost use Rattle.kinds.specs.Nodes.{kinds_of, args_of};
ghost use Rattle.walks.specs.Steps.{cursor};
ghost use Rattle.walks.specs.Enter.{Ready, Scanned, EntersAt, OnAt, TurnsAt};

use crate::guide::Guide;
use crate::step::{Step, put};
use kinds::Node;
use sets::set::Set;

impl Guide<'_> {
    // Enters node i, on the way to a position of the goal or, if `pass`, past the node, and writes the marks on the way from `at` on.
    #[cycle(way_in)]
    pub fn enter(self, i: usize, goal: Set, pass: bool, tree: &mut [u16], at: usize) -> Step
        requires ready { Ready (kinds_of self.pattern.now.node) (args_of self.pattern.now.node) i at }
        requires scanned { Scanned (kinds_of self.pattern.now.node) (args_of self.pattern.now.node) self.opens.now.null self.opens.now.first i }
        ensures { EntersAt (kinds_of self.entry.pattern.now.node) (args_of self.entry.pattern.now.node) i goal pass tree.old tree.new at result }
    {
        match self.pattern.node[i] {
            Node::Eps(_) | Node::Other(..) => Step::Passed(at, false),
            Node::Pos(q) => Step::Stopped(q as usize, at, false),
            Node::Cat(left) => {
                let more = self.opens.open_to(i - 1, goal, pass);
                let s = self.enter(left as usize, goal, more, tree, at);
                self.on(i - 1, goal, pass, tree, s)
            }
            Node::Alt(left) => {
                let right = i - 1;
                let other = self.opens.open_to(right, goal, pass);
                if self.opens.open_to(left as usize, goal, pass) {
                    self.enter(left as usize, goal, pass, tree, at).also(other)
                } else {
                    self.enter(right, goal, pass, tree, at)
                }
            }
            Node::Star(mark) | Node::Opt(mark) => { self.turn(i - 1, mark, goal, pass, tree, at) }
            Node::Branch(mark) | Node::Plus(mark) => {
                let b = put(tree, at, mark);
                let s = self.enter(i - 1, goal, pass, tree, b);
                s.close(tree, mark)
            }
        }
    }

    // Enters node i after the step s, where that passed.
    #[cycle(way_in)]
    pub fn on(self, i: usize, goal: Set, pass: bool, tree: &mut [u16], s: Step) -> Step
        requires ready { Ready (kinds_of self.pattern.now.node) (args_of self.pattern.now.node) i (cursor s) }
        requires scanned { Scanned (kinds_of self.pattern.now.node) (args_of self.pattern.now.node) self.opens.now.null self.opens.now.first i }
        ensures { OnAt (kinds_of self.entry.pattern.now.node) (args_of self.entry.pattern.now.node) i goal pass tree.old tree.new s result }
    {
        match s {
            Step::Passed(at, other) => self.enter(i, goal, pass, tree, at).also(other),
            Step::Stopped(..) => s,
        }
    }

    // A turn over the part at node i, whose mark is this, where it leads to the goal.
    #[cycle(way_in)]
    pub fn turn(
        self,
        i: usize,
        mark: u16,
        goal: Set,
        pass: bool,
        tree: &mut [u16],
        at: usize,
    ) -> Step
        requires ready { Ready (kinds_of self.pattern.now.node) (args_of self.pattern.now.node) i (at + 1) }
        requires scanned { Scanned (kinds_of self.pattern.now.node) (args_of self.pattern.now.node) self.opens.now.null self.opens.now.first i }
        ensures { TurnsAt (kinds_of self.entry.pattern.now.node) (args_of self.entry.pattern.now.node) i mark goal pass tree.old tree.new at result }
    {
        if self.opens.goes(i, goal) {
            let b = put(tree, at, mark);
            self.enter(i, goal, false, tree, b).also(pass)
        } else {
            Step::Passed(at, false)
        }
    }
}
