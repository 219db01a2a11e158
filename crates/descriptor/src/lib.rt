// Addresses and table words of the short-descriptor format: their fields, what they say, and the words of shadow tables.
#![tactic(auto)]

pub mod address;
mod bits;
pub mod entry;
pub mod permission;
pub mod shadow;
