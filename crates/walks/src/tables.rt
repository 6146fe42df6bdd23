// The tables of a read pattern.
ghost use Rattle.std.specs.Prelude.{◌≡◌, length};
ghost use Rattle.kinds.specs.Nodes.{kinds_of, args_of};
ghost use Rattle.sets.specs.Members.{limit, rows};
ghost use Rattle.walks.specs.Root.{Root, Tabled, Spared};

use crate::first::opens_first;
use crate::guide::Guide;
use crate::null::may_be_empty;
use kinds::ReadPattern;
use sets::set::Set;

// What the tables say of each node: `null`, 1 if it may be passed over no text, else 0; `first`, with which positions it may begin; `upto`, one
// past the last of its positions, 0 where it has none. At a node that is not of the pattern anything may stand.
#[derive(Clone, Copy)]
pub struct Openings {
    pub null: [u8; 1024],
    pub first: [Set; 1024],
    pub upto: [u16; 1024],
}

// And which positions may follow each position.
#[derive(Clone, Copy)]
pub struct Tables {
    pub nodes: Openings,
    pub follow: [Set; 64],
}

impl Tables {
    // Fills the tables of the read pattern whose last node is `root`, and hands back the positions that may be the last.
    pub fn fill(&mut self, pattern: &ReadPattern, root: usize) -> Set
        requires root { Root (kinds_of pattern.now.node) (args_of pattern.now.node) root }
        ensures tabled { Tabled (kinds_of pattern.now.node) (args_of pattern.now.node)
            self.new.nodes.null self.new.nodes.first self.new.nodes.upto self.new.follow root result }
        ensures spared { Spared (kinds_of pattern.now.node) (args_of pattern.now.node) root
            self.old.nodes.null self.new.nodes.null self.old.nodes.first self.new.nodes.first
            self.old.nodes.upto self.new.nodes.upto self.old.follow self.new.follow }
    {
        may_be_empty(pattern, &mut self.nodes.null, root);
        opens_first(
            pattern,
            &self.nodes.null,
            &mut self.nodes.first,
            &mut self.nodes.upto,
            root,
        );
        let none = Set::empty();
        let guide = Guide {
            pattern,
            opens: &self.nodes,
        };
        guide.may_follow(&mut self.follow, root, none, true, none)
    }
}
