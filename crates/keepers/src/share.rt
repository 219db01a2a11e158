// One guest's pages of a keeper.
ghost use Rattle.std.specs.Prelude.{◌≡◌, ℕ, false, true, is_ok, IfOk, Result, if◌then◌else◌};
ghost use Rattle.platform.specs.declared.refusal.Refusal.{Refusal};
ghost use Rattle.platform.specs.Lists.{count, member};
ghost use Rattle.keepers.specs.Shares.{Share, no_share, share_with, share_marked, share_enrol_answer, share_give_answer, ShareTaken};

use platform::refusal::Refusal;
use platform::units::Page;
use std::alloc::{AllocError, Global};

// One guest's pages: which are enrolled, which of them are free, and which one a take gives.
// `order` says how the pages stand, and `share` what that means; the order alone decides which page a take gives.
pub trait PageShare: Drop {
    ghost Order: { Type 0 };

    ghost order: { Self → Order };

    // No page.
    ghost none: { Order };

    ghost share: { Order → Share };

    // One page more, free.
    ghost added: { Order → ℕ → Order };

    // An enrolled page freed.
    ghost freed: { Order → ℕ → Order };

    // What a take answers, and what it leaves.
    ghost chosen: { Order → Result ℕ Refusal };

    ghost left: { Order → Order };

    // No page yet, and room for all.
    fn new(heap: Global) -> Result<Self, AllocError>
        ensures answer { IfOk result (λ s. order s ≡ none) };

    // Forgets every page.
    fn clear(&mut self)
        ensures after { order self.new ≡ none };

    // Whether a page is enrolled.
    fn holds(&self, page: Page) -> bool
        ensures answer { result ≡ member page (share (order self.now)).pages };

    // How many pages are free.
    fn free_count(&self) -> u32
        ensures answer { result ≡ count (share (order self.now)).free (share (order self.now)).pages };

    // One page more, free, that is not there yet.
    fn add(&mut self, page: Page) -> Result<(), Refusal>
        requires { member page (share (order self.old)).pages ≡ false }
        ensures answer { result ≡ share_enrol_answer (share (order self.old)) }
        ensures after { order self.new ≡ (if is_ok result then added (order self.old) page else order self.old) };

    // Gives the chosen page, which is then not free.
    fn take(&mut self) -> Result<Page, Refusal>
        ensures answer { result ≡ chosen (order self.old) }
        ensures after { order self.new ≡ left (order self.old) }
        ensures taken { ShareTaken (share (order self.old)) result (share (order self.new)) };

    // Frees a page.
    fn give(&mut self, page: Page) -> Result<(), Refusal>
        ensures answer { result ≡ share_give_answer (share (order self.old)) page }
        ensures after { order self.new ≡ (if is_ok result then freed (order self.old) page else order self.old) };

    // What each order means.
    ghost without: { share none ≡ no_share };

    ghost adds: { (o : Order) (p : ℕ) → share (added o p) ≡ share_with (share o) p };

    ghost frees: { (o : Order) (p : ℕ) → member p (share o).pages ≡ true → share (freed o p) ≡ share_marked (share o) p true };

    // A take from no page leaves no page.
    ghost leaves: { left none ≡ none };
}
