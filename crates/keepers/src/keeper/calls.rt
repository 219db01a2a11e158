// The calls of a page keeper of any make.
ghost use Rattle.std.specs.Prelude.{◌≡◌, IfOk};
ghost use Rattle.std.specs.List.{list_any};
ghost use Rattle.platform.specs.Keepers.{emptied, enrol_answer, enrol_after, Taken, give_answer, give_after};
ghost use Rattle.platform.specs.Lists.{member};
ghost use Rattle.keepers.specs.Orders.{holdings_of, orders_of, changed_if, chosen_by, left_by};

use super::Keeper;
use crate::share::PageShare;
use platform::guest::place_of;
use platform::keeper::PageKeeper;
use platform::refusal::Refusal;
use platform::units::{GUESTS, Guest, Page};
use std::alloc::{AllocError, Global};

impl<S: PageShare> Keeper<S> {
    // No page yet, and room for all.
    pub fn new(heap: Global) -> Result<Self, AllocError>
        ensures answer { IfOk result (λ k. holdings_of S.share S.order k ≡ emptied) }
        ensures order { IfOk result (λ k. orders_of S.none S.order k ≡ (λ _. S.none)) }
    {
        let mut shares = Vec::with_capacity(heap, usize::from(GUESTS))?;
        for _ in 0..GUESTS {
            shares.push_reserved(S::new(heap)?);
        }
        Ok(Keeper { shares })
    }

    // Whether some guest has a page.
    // kept: a loop by an index, here and in `empty`. In a chain, or over `iter_mut`, an edit that leaves a guest out is refused for
    // its form alone: one of the same form that leaves nobody out is refused as well.
    fn is_held(&self, page: Page) -> bool
        ensures answer { result ≡ list_any (λ s. member page (S.share (S.order s)).pages) self.now.shares.items }
    {
        for place in 0..self.shares.len() {
            if self.shares[place].holds(page) {
                return true;
            }
        }
        false
    }
}

// Beside what every keeper does, the clauses `order` and `chosen` say how each guest's pages stand and which page is taken.
impl<S: PageShare> PageKeeper for Keeper<S> {
    ghost holdings = { holdings_of S.share S.order };

    fn empty(&mut self)
        ensures after { holdings_of S.share S.order self.new ≡ emptied }
        ensures order { orders_of S.none S.order self.new ≡ (λ _. S.none) }
    {
        for i in 0..self.shares.len() {
            self.shares[i].clear();
        }
    }

    fn enrol(&mut self, guest: Guest, page: Page) -> Result<(), Refusal>
        ensures answer { result ≡ enrol_answer (holdings_of S.share S.order self.old) guest page }
        ensures after { holdings_of S.share S.order self.new ≡ enrol_after (holdings_of S.share S.order self.old) guest page }
        ensures order { orders_of S.none S.order self.new ≡ changed_if result S.added (orders_of S.none S.order self.old) guest page }
    {
        let place = place_of(guest)?;
        if self.is_held(page) {
            return Err(Refusal::KeeperRefuses);
        }
        self.shares[place].add(page)
    }

    fn take(&mut self, guest: Guest) -> Result<Page, Refusal>
        ensures taken { Taken (holdings_of S.share S.order self.old) guest result (holdings_of S.share S.order self.new) }
        ensures chosen { result ≡ chosen_by S.chosen (orders_of S.none S.order self.old) guest }
        ensures order { orders_of S.none S.order self.new ≡ left_by S.left (orders_of S.none S.order self.old) guest }
    {
        self.shares[place_of(guest)?].take()
    }

    fn give(&mut self, guest: Guest, page: Page) -> Result<(), Refusal>
        ensures answer { result ≡ give_answer (holdings_of S.share S.order self.old) guest page }
        ensures after { holdings_of S.share S.order self.new ≡ give_after (holdings_of S.share S.order self.old) guest page }
        ensures order { orders_of S.none S.order self.new ≡ changed_if result S.freed (orders_of S.none S.order self.old) guest page }
    {
        self.shares[place_of(guest)?].give(page)
    }

    fn free_count(&self, guest: Guest) -> Result<u32, Refusal> {
        Ok(self.shares[place_of(guest)?].free_count())
    }
}
