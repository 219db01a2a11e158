// The page keeper, over the pages of one guest, and two makes of these: stacks and marks.
#![tactic(auto)]

pub mod keeper;
pub mod laws;
pub mod makes;
pub mod mark;
pub mod marks;
mod share;
pub mod stack;
pub mod uses;

// A guest has at most as many pages.
const ROOM: usize = 64;
