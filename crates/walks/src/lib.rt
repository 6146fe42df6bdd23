// Walks over the read pattern: tables of its nodes and positions, and the rows of marks between two letters.
#![tactic(auto)]

pub mod enter;
pub mod first;
pub mod follow;
pub mod guide;
pub mod look;
pub mod null;
pub mod resume;
pub mod step;
pub mod tables;
