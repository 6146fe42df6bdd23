// Judging a text by the tables of a pattern.
ghost use Rattle.std.specs.Prelude.{◌-◌, ◌≤◌, ◌<◌, length, ℕ};
ghost use Rattle.kinds.specs.declared.ReadPattern.{ReadPattern};
ghost use Rattle.meaning.specs.Expression.{Re};
ghost use Rattle.meaning.specs.Limits.{text_limit};
ghost use Rattle.along.specs.Links.{ChartedBy, Stock};
ghost use Rattle.along.specs.Walk.{Measures, Walkable, Walks};
ghost use Rattle.tree.specs.declared.prepare.Reader.{Reader};
ghost use Rattle.tree.specs.Judge.{Judgeable, Judges, Prepared, Prepares, SoughtAs, Seeks, Serves};

use crate::outcome::{Outcome, Refusal};
use crate::prepare::Reader;
use crate::room::room_for;
use along::chart::Chart;
use along::links::Links;
use along::walk::{Tree, walk};
use kinds::ReadPattern;
use passes::backward::{Recent, backward};
use passes::place::place;
use sets::set::Set;

// What is kept on the way, of steps back over a byte and of ways on: it serves for every text of a pattern.
#[derive(Clone, Copy)]
pub struct Kept {
    pub memo: [Recent; 256],
    pub links: Links,
}

impl Kept {
    // Nothing is kept.
    pub fn empty() -> Kept
        ensures { (pattern : ReadPattern) (reader : Reader) → Serves pattern reader result }
    {
        let none = Set::empty();
        Kept {
            memo: [Recent {
                next: none,
                found: none,
            }; 256],
            links: Links::empty(),
        }
    }
}

// The walk along the text with next to no room, for what it counts.
fn measure(chart: Chart, text: &[u8], cells: &[u64], links: &mut Links) -> Tree
    requires walks { Walks chart.pattern.now chart.root text.now cells.now }
    requires charted { ChartedBy chart.tables.now chart.pattern.now chart.root }
    requires stock { Stock chart.pattern.now chart.root links.old }
    ensures measures { (e : Re) → Walkable e chart.entry.pattern.now chart.entry.root text.now cells.now
        → Measures e text.now result }
    ensures stocked { Stock chart.entry.pattern.now chart.entry.root links.new }
{
    let mut none = [0u16; 1];
    walk(chart, text, cells, links, &mut none)
}

// With the cells filled: is there a tree? Its row goes into the room if that holds it. A room that holds every tree is written at once;
// else the row is measured first, since a room that does not hold it stays as it is.
fn judge(
    pattern: &ReadPattern,
    reader: &Reader,
    text: &[u8],
    cells: &[u64],
    links: &mut Links,
    tree: &mut [u16],
) -> Outcome
    requires judges { Judges pattern.now reader.now text.now cells.now }
    requires stock { Stock pattern.now (pattern.now.nodes - 1) links.old }
    ensures sought_as { (e : Re) → Judgeable e pattern.now reader.now text.now cells.now
        → SoughtAs e text.now tree.old tree.new result }
    ensures stocked { Stock pattern.now (pattern.now.nodes - 1) links.new }
{
    let tables = &reader.tables;
    let root = pattern.nodes - 1;
    let n = text.len();
    if !tables.nodes.open_to(root, Set::load(cells, 0), n == 0) {
        let first = tables.nodes.first[root];
        return Err(Refusal::NoTree(place(text, &reader.mask, &tables.follow, first)));
    }
    let chart = Chart {
        pattern,
        tables,
        root,
    };
    if room_for(pattern.marks, n) <= tree.len() {
        let w = walk(chart, text, cells, links, tree);
        return Ok(w);
    }
    let w = measure(chart, text, cells, links);
    if w.length <= tree.len() {
        walk(chart, text, cells, links, tree);
    }
    Ok(w)
}

// With the tables of the pattern: fills the cells, and judges. The cells that the text asks for stay filled.
pub fn seek(
    pattern: &ReadPattern,
    reader: &Reader,
    kept: &mut Kept,
    text: &[u8],
    cells: &mut [u64],
    tree: &mut [u16],
) -> Outcome
    requires prepares { Prepares pattern.now reader.now }
    requires lent { (length text.now ≤ text_limit) × (length text.now < length cells.old) }
    requires serves { Serves pattern.now reader.now kept.old }
    ensures seeks { (e : Re) → Prepared e pattern.now reader.now
        → Seeks e text.now cells.old cells.new tree.old tree.new result }
    ensures still_serves { Serves pattern.now reader.now kept.new }
{
    backward(
        text,
        &reader.mask,
        &reader.pre,
        reader.last,
        &mut kept.memo,
        cells,
    );
    judge(pattern, reader, text, cells, &mut kept.links, tree)
}
