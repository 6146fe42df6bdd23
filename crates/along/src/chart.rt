// What a walk along a text goes by.
ghost use Rattle.std.specs.Prelude.{◌≡◌};

use kinds::ReadPattern;
use walks::guide::Guide;
use walks::tables::Tables;

// The read pattern, its tables, and its last node.
#[derive(Clone, Copy)]
pub struct Chart<'a> {
    pub pattern: &'a ReadPattern,
    pub tables: &'a Tables,
    pub root: usize,
}

impl<'a> Chart<'a> {
    // What a walk over the nodes goes by.
    pub fn guide(self) -> Guide<'a>
        ensures pattern { result.pattern.now ≡ self.entry.pattern.now }
        ensures opens { result.opens.now ≡ self.entry.tables.now.nodes }
    {
        Guide {
            pattern: self.pattern,
            opens: &self.tables.nodes,
        }
    }
}
