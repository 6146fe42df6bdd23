// The walk along a text, which writes the row of its first tree.
ghost use Rattle.meaning.specs.Expression.{Re};
ghost use Rattle.along.specs.Links.{ChartedBy, Stock};
ghost use Rattle.along.specs.Walk.{Advanced, Advances, Walkable, Walks, Writes};

use crate::chart::Chart;
use crate::glide::glide;
use crate::lay::letter;
use crate::links::Links;
use crate::stand::Stand;
use sets::set::Set;
use walks::step::{Step, put};

// The first tree of a text: how many tokens its row has, and whether another tree exists.
#[derive(Clone, Copy, PartialEq, Eq, Debug)]
pub struct Tree {
    pub length: usize,
    pub other: bool,
}

// Reads the next byte: its letter, and the marks up to the next position that is alive or, behind the last byte, to the end of the tree.
fn advance(
    chart: Chart,
    text: &[u8],
    cells: &[u64],
    kept: &mut Links,
    tree: &mut [u16],
    s: Stand,
) -> Step
    requires advances { Advances chart.pattern.now chart.root text.now cells.now s }
    requires charted { ChartedBy chart.tables.now chart.pattern.now chart.root }
    requires stock { Stock chart.pattern.now chart.root kept.old }
    ensures advanced { Advanced chart.entry.pattern.now chart.entry.root text.now cells.now tree.old tree.new s result }
    ensures stocked { Stock chart.entry.pattern.now chart.entry.root kept.new }
{
    let next = s.read + 1;
    let at = put(tree, s.at, letter(text[s.read]));
    let goal = Set::load(cells, next);
    kept.onward(chart, s.position, goal, next == text.len(), tree, at)
        .also(s.other)
}

// Writes the row of the first tree, as far as it fits: by ways that were gone before, in this text or another, where they are kept, and else
// by the walk from the root.
pub fn walk(chart: Chart, text: &[u8], cells: &[u64], kept: &mut Links, tree: &mut [u16]) -> Tree
    requires walks { Walks chart.pattern.now chart.root text.now cells.now }
    requires charted { ChartedBy chart.tables.now chart.pattern.now chart.root }
    requires stock { Stock chart.pattern.now chart.root kept.old }
    ensures writes { (e : Re) → Walkable e chart.entry.pattern.now chart.entry.root text.now cells.now
        → Writes e text.now tree.old tree.new result }
    ensures stocked { Stock chart.entry.pattern.now chart.entry.root kept.new }
{
    let n = text.len();
    let goal = Set::load(cells, 0);
    let mut s = chart.guide().enter(chart.root, goal, n == 0, tree, 0);
    let mut i = 0;
    while i < n {
        let g = glide(
            kept,
            &chart.tables.follow,
            text,
            cells,
            tree,
            Stand::after(s, i),
        );
        i = g.read + 1;
        s = advance(chart, text, cells, kept, tree, g);
    }
    let end = Stand::after(s, n);
    Tree {
        length: end.at,
        other: end.other,
    }
}
