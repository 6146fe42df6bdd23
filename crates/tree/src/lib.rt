// The first tree of a text.
#![tactic(auto)]

pub mod first_tree;
pub mod judge;
pub mod outcome;
pub mod prepare;
pub mod room;
pub mod search;
