// A guest's walk: what an address leads to by the guest's own tables, the window, the memory and the rights book.
#![tactic(auto)]

pub mod abort;
pub mod laws;
pub mod mapping;
pub mod view;
