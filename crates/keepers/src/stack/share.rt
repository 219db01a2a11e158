// One guest's stack.
ghost use Rattle.std.specs.Prelude.{refl};
ghost use Rattle.keepers.specs.Meanings.{pile_adds, pile_frees};
ghost use Rattle.keepers.specs.Stacks.{Pile, no_pile, pile_of, pile_share, pile_with, pile_freed, pile_answer, pile_after};

use super::PageStack;
use crate::ROOM;
use crate::share::PageShare;
use platform::refusal::Refusal;
use platform::units::Page;
use std::alloc::{AllocError, Global};

// A page that is enrolled or given goes on top, and a take gives the page on top.
impl PageShare for PageStack {
    ghost Order = { Pile };

    ghost order = { pile_of };

    ghost none = { no_pile };

    ghost share = { pile_share };

    ghost added = { pile_with };

    ghost freed = { pile_freed };

    ghost chosen = { pile_answer };

    ghost left = { pile_after };

    fn new(heap: Global) -> Result<Self, AllocError> {
        let pages = Vec::with_capacity(heap, ROOM)?;
        let free = Vec::with_capacity(heap, ROOM)?;
        Ok(PageStack { pages, free })
    }

    fn clear(&mut self) {
        self.free.clear();
        self.pages.clear();
    }

    fn holds(&self, page: Page) -> bool {
        self.pages.contains(&page)
    }

    #[tactic(auto, using(crate::proofs::Sets::stacked_most, crate::proofs::Stacks::pile_counted))]
    fn free_count(&self) -> u32 {
        self.free.len() as u32
    }

    #[tactic(auto, using(crate::proofs::Sets::stacked_most, crate::proofs::Sets::stacked_add))]
    fn add(&mut self, page: Page) -> Result<(), Refusal> {
        if self.pages.len() >= ROOM {
            return Err(Refusal::KeeperRefuses);
        }
        self.pages.push_reserved(page);
        self.free.push_reserved(page);
        Ok(())
    }

    #[tactic(auto, using(crate::proofs::Sets::stacked_pop, crate::proofs::Stacks::pile_took))]
    fn take(&mut self) -> Result<Page, Refusal> {
        self.free.pop().ok_or(Refusal::KeeperRefuses)
    }

    #[tactic(auto, using(crate::proofs::Sets::stacked_give, crate::proofs::Sets::stacked_room))]
    fn give(&mut self, page: Page) -> Result<(), Refusal> {
        if !self.holds(page) || self.free.contains(&page) {
            return Err(Refusal::KeeperRefuses);
        }
        self.free.push_reserved(page);
        Ok(())
    }

    ghost without = { refl };

    ghost adds = { pile_adds };

    ghost frees = { pile_frees };

    ghost leaves = { refl };
}
