// Starting the machine.
ghost use Rattle.std.specs.Prelude.{◌≡◌};
ghost use Rattle.runner.specs.States.{state};
ghost use Rattle.runner.specs.Starts.{short_guest, any_short, admit_one, admit_all, start_answer, start_after};

use super::Session;
use crate::enrol::enrollable;
use platform::refusal::Refusal;
use platform::units::{GUESTS, Guest};

// A guest needs a page for a root and one for a leaf.
const LEAST_PAGES: u32 = 2;

impl Session {
    // Whether a guest has a pool, and in it fewer than two pages to enrol below page `count`.
    fn is_short(&self, count: u32, guest: Guest) -> bool
        ensures answer { result ≡ short_guest (state self.now) count guest }
    {
        self.book.has_pool(guest)
            && enrollable(&self.memory, &self.book, count, Some(guest)) < LEAST_PAGES
    }

    // Whether that is so of some guest.
    // kept: a loop. As `any` over the guests it was tried, and the search for its proof stopped at a limit.
    fn is_any_short(&self, count: u32) -> bool
        ensures answer { result ≡ any_short (state self.now) count 8 }
    {
        for guest in 1..=GUESTS {
            if self.is_short(count, guest) {
                return true;
            }
        }
        false
    }

    // Admits a guest if it has a pool.
    fn admit_pooled(&mut self, guest: Guest)
        ensures after { state self.new ≡ admit_one (state self.old) guest }
    {
        if self.book.has_pool(guest) {
            let _ = self.guests.admit(guest);
        }
    }

    // Admits each guest that has a pool, upward.
    fn admit_all(&mut self)
        ensures after { state self.new ≡ admit_all (state self.old) 8 }
    {
        for guest in 1..=GUESTS {
            self.admit_pooled(guest);
        }
    }

    // Checks every guest that has a pool before it admits any.
    pub(super) fn start(&mut self) -> Result<(), Refusal>
        ensures answer { result ≡ start_answer (state self.old) }
        ensures after { state self.new ≡ start_after (state self.old) }
    {
        let window = self.window.ok_or(Refusal::BadWindow)?;
        if self.is_any_short(window.count()) {
            return Err(Refusal::TooFewPages);
        }
        self.admit_all();
        self.started = true;
        Ok(())
    }
}
