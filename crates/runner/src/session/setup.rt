// Setting up.
ghost use Rattle.std.specs.Prelude.{◌≡◌, IfOk};
ghost use Rattle.runner.specs.States.{state, opening, window_set};
ghost use Rattle.platform.specs.Windows.{window_answer};
ghost use Rattle.runner.specs.Setups.{unit_answer};

use super::Session;
use books::interval::IntervalBook;
use guests::table::Guests;
use memories::listed::ListedPages;
use platform::refusal::Refusal;
use platform::span::Span;
use platform::window::Window;
use std::alloc::{AllocError, Global};

impl Session {
    // Nothing is set up yet.
    pub fn new(heap: Global) -> Result<Self, AllocError>
        ensures answer { IfOk result (λ s. state s ≡ opening) }
    {
        let memory = ListedPages::new(heap)?;
        let book = IntervalBook::new(heap)?;
        Ok(Session {
            window: None,
            memory,
            book,
            guests: Guests::new(),
            started: false,
        })
    }

    // Takes a window in place of the one before, if any.
    pub(super) fn set_window(&mut self, pages: Span) -> Result<(), Refusal>
        ensures answer { result ≡ unit_answer (window_answer pages.first pages.count) }
        ensures after { state self.new ≡ window_set (state self.old) (window_answer pages.first pages.count) }
    {
        self.window = Some(Window::new(pages)?);
        Ok(())
    }
}
