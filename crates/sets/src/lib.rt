// Sets of positions and classes of bytes, by value.
#![tactic(auto)]

pub mod class;
pub mod set;
