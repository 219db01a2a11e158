// Runs a script: sets up, starts, makes the calls, and says what came of each record.
#![tactic(auto)]

mod enrol;
mod run;
mod session;

pub use enrol::enrollable;
pub use run::{LIMIT, report, transcript};
pub use session::{Session, Step};
