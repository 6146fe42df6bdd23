// The passes over a text between the tables of a pattern and the work cells.
#![tactic(auto)]

pub mod backward;
pub mod cells;
pub mod join;
pub mod masks;
pub mod place;
pub mod reverse;
pub mod steps;
