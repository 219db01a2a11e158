// The interface of a page keeper.
ghost use Rattle.std.specs.Prelude.{◌≡◌};
ghost use Rattle.platform.specs.Keepers.{Keep, emptied, enrol_answer, enrol_after, Taken, give_answer, give_after, free_answer};

use crate::refusal::Refusal;
use crate::units::{Guest, Page};

// A page keeper: for each guest up to 64 enrolled pages, and which of them are free. `holdings` is its meaning.
// kept: guest and page are two parameters, and no struct, since `take` and `free_count` have the guest alone.
pub trait PageKeeper {
    ghost holdings: { Self → Keep };

    // Forgets every page.
    fn empty(&mut self)
        ensures after { holdings self.new ≡ emptied };

    // Enrols a page for a guest; the page is free.
    fn enrol(&mut self, guest: Guest, page: Page) -> Result<(), Refusal>
        ensures answer { result ≡ enrol_answer (holdings self.old) guest page }
        ensures after { holdings self.new ≡ enrol_after (holdings self.old) guest page };

    // Gives some free page of a guest, which is then not free. Which one is open.
    fn take(&mut self, guest: Guest) -> Result<Page, Refusal>
        ensures taken { Taken (holdings self.old) guest result (holdings self.new) };

    // Frees a page of a guest.
    fn give(&mut self, guest: Guest, page: Page) -> Result<(), Refusal>
        ensures answer { result ≡ give_answer (holdings self.old) guest page }
        ensures after { holdings self.new ≡ give_after (holdings self.old) guest page };

    // How many pages of a guest are free.
    fn free_count(&self, guest: Guest) -> Result<u32, Refusal>
        ensures answer { result ≡ free_answer (holdings self.now) guest };
}
