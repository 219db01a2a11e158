// The listing: a line of text for each record of a script, which says what came of it.
#![tactic(auto)]

mod line;
mod reply;
mod whole;

pub use line::Line;
pub use reply::{Outcome, Reply};
pub use whole::render;
