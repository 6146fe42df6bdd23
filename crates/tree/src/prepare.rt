// What a read pattern comes to before any text: its tables.
ghost use Rattle.std.specs.Prelude.{ℕ, ◌-◌, ◌≤◌};
ghost use Rattle.meaning.specs.Expression.{Re};
ghost use Rattle.kinds.specs.Nodes.{kinds_of, args_of};
ghost use Rattle.sets.specs.Members.{limit};
ghost use Rattle.walks.specs.Root.{Root};
ghost use Rattle.tree.specs.Judge.{Given, with_marks, Blank, Bare, Prepared};

use kinds::ReadPattern;
use passes::masks::masks;
use passes::reverse::reverse;
use sets::set::Set;
use walks::tables::{Openings, Tables};

// What is computed once of a read pattern, for all the texts that are judged by it: the tables of its nodes and of what may follow each
// position, the positions that read each byte, those that may come before each, and those that may be the last.
#[derive(Clone, Copy)]
pub struct Reader {
    pub tables: Tables,
    pub mask: [Set; 256],
    pub pre: [Set; 64],
    pub last: Set,
}

impl Reader {
    // Tables with nothing in them.
    pub fn blank() -> Reader
        ensures blank { Blank result }
        ensures bare { Bare result }
    {
        let none = Set::empty();
        Reader {
            tables: Tables {
                nodes: Openings {
                    null: [0; 1024],
                    first: [none; 1024],
                    upto: [0; 1024],
                },
                follow: [none; 64],
            },
            mask: [none; 256],
            pre: [none; 64],
            last: none,
        }
    }

    // Fills the tables for the read pattern. They are the same whatever number of marks it says.
    pub fn prepare(&mut self, pattern: &ReadPattern)
        requires some { 1 ≤ pattern.now.nodes }
        requires rooted { Root (kinds_of pattern.now.node) (args_of pattern.now.node) (pattern.now.nodes - 1) }
        requires few_positions { pattern.now.positions ≤ limit }
        requires blank { Blank self.old }
        ensures { (e : Re) (marks : ℕ) → Given e (with_marks pattern.now marks) → Prepared e (with_marks pattern.now marks) self.new }
    {
        self.last = self.tables.fill(pattern, pattern.nodes - 1);
        masks(&pattern.class, pattern.positions, &mut self.mask);
        reverse(&self.tables.follow, &mut self.pre);
    }
}
