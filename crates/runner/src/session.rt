// What a script has set up, and the machine that it then runs.
use books::interval::IntervalBook;
use guests::table::Guests;
use listing::Outcome;
use memories::listed::ListedPages;
use platform::window::Window;
use std::ops::ControlFlow;

mod perform;
mod setup;
mod start;

// The last accepted window, the memory, the rights book and the guests' records, and whether start was accepted.
// kept: `started` is a flag, and not a type for each state. Records come in any order, and one of the wrong phase is refused and
// leaves all as it was.
// kept: no `impl Model`, for the reason of `Guests` and `ListedPages`: a state has theirs in it.
#[derive(Drop)]
pub struct Session {
    window: Option<Window>,
    memory: ListedPages,
    book: IntervalBook,
    guests: Guests,
    started: bool,
}

// What came of a command: the program goes on after it, or it stops. Either way the record has its line.
pub type Step = ControlFlow<Outcome, Outcome>;
