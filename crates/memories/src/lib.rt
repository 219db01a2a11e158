// Memories: words in a row, and listed pages.
#![tactic(auto)]

pub mod flat;
pub mod listed;
