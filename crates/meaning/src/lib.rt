// Definitions only: what the words of the product mean. See specs/.
#![tactic(auto)]

// What the night sheet says of a mark: how many of its turns read text, how many bytes they read, and how many the longest of them read.
#[repr(C)]
#[derive(Clone, Copy)]
pub struct Record {
    pub turns: u64,
    pub bytes: u64,
    pub longest: u64,
}
