// What a walk goes by.
use crate::tables::Openings;
use kinds::ReadPattern;

// The read pattern, and what the tables say of its nodes.
#[derive(Clone, Copy)]
pub struct Guide<'a> {
    pub pattern: &'a ReadPattern,
    pub opens: &'a Openings,
}
