// What the core keeps of each guest, and the calls that touch no table.
#![tactic(auto)]

pub mod record;
pub mod table;
