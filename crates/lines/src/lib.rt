// What the desk writes: the whole desk as a function from input bytes to output bytes.
#![tactic(auto)]

pub mod desk;
pub mod parts;
pub mod print;
