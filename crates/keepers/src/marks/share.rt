// One guest's marks.
ghost use Rattle.std.specs.Prelude.{refl};
ghost use Rattle.keepers.specs.Meanings.{ring_adds, ring_frees};
ghost use Rattle.keepers.specs.Rings.{ring_of};
ghost use Rattle.keepers.specs.Rows.{Ring, no_ring, ring_share, ring_with, ring_freed, round_answer, round_after};

use super::PageMarks;
use crate::ROOM;
use crate::mark::Mark;
use crate::share::PageShare;
use platform::refusal::Refusal;
use platform::units::Page;
use std::alloc::{AllocError, Global};

// A take gives the page of the next free mark, going round.
impl PageShare for PageMarks {
    ghost Order = { Ring };

    ghost order = { ring_of };

    ghost none = { no_ring };

    ghost share = { ring_share };

    ghost added = { ring_with };

    ghost freed = { ring_freed };

    ghost chosen = { round_answer };

    ghost left = { round_after };

    fn new(heap: Global) -> Result<Self, AllocError> {
        let marks = Vec::with_capacity(heap, ROOM)?;
        Ok(PageMarks { marks, next: 0 })
    }

    fn clear(&mut self) {
        self.next = 0;
        self.marks.clear();
    }

    #[tactic(auto, using(crate::proofs::Rows::found_within))]
    fn holds(&self, page: Page) -> bool {
        self.find(page).is_some()
    }

    // kept: a `for` that counts. A chain of `filter` and `count` took three times as long.
    fn free_count(&self) -> u32 {
        let mut free = 0;
        for mark in &self.marks {
            if mark.free {
                free += 1;
            }
        }
        free
    }

    #[tactic(auto, using(crate::proofs::Rows::pages_length, crate::proofs::Rows::neat_push))]
    fn add(&mut self, page: Page) -> Result<(), Refusal> {
        if self.marks.len() >= ROOM {
            return Err(Refusal::KeeperRefuses);
        }
        self.marks.push_reserved(Mark { page, free: true });
        Ok(())
    }

    #[tactic(auto, using(crate::proofs::Rows::neat_set, crate::proofs::Rows::set_is, crate::proofs::Rows::page_read, crate::proofs::Rings::taken_had, crate::proofs::Rings::taken_free, crate::proofs::Rings::taken_left, crate::proofs::Rings::ring_untaken))]
    fn take(&mut self) -> Result<Page, Refusal> {
        let place = self.round_place().ok_or(Refusal::KeeperRefuses)?;
        self.next = place + 1;
        let mark = &mut self.marks[place];
        mark.free = false;
        Ok(mark.page)
    }

    #[tactic(auto, using(crate::proofs::Rows::found_within, crate::proofs::Rows::neat_set, crate::proofs::Rows::set_is, crate::proofs::Rows::free_is))]
    fn give(&mut self, page: Page) -> Result<(), Refusal> {
        let place = self.find(page).ok_or(Refusal::KeeperRefuses)?;
        if self.marks[place].free {
            return Err(Refusal::KeeperRefuses);
        }
        self.marks[place].free = true;
        Ok(())
    }

    ghost without = { refl };

    ghost adds = { ring_adds };

    ghost frees = { ring_frees };

    ghost leaves = { refl };
}
