// The walk along a text, which writes the row of its first tree.
#![tactic(auto)]

pub mod chart;
pub mod glide;
pub mod lay;
pub mod links;
pub mod stand;
pub mod walk;
