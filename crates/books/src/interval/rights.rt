// What the interval book answers.
ghost use Rattle.books.specs.Intervals.{book_of, gives, pool_covers};
ghost use Rattle.books.specs.Ledgers.{ledger};
ghost use Rattle.std.specs.Prelude.{◌≡◌, ◌<◌, IfSome, position};
ghost use Rattle.books.specs.Tidy;
ghost use Rattle.books.specs.Tidy.{one_writer};

use super::IntervalBook;
use crate::grant::Grant;
use platform::book::RightsBook;
use platform::right::Right;
use platform::span::Span;
use platform::units::{Guest, Page};

// What one grant gives a guest on a page.
fn given(grant: &Grant, guest: Guest, page: Page) -> Right
    ensures answer { result ≡ gives grant.now guest page }
{
    if grant.guest == guest && grant.span.covers(page) {
        grant.right
    } else {
        Right::Nothing
    }
}

impl IntervalBook {
    // Where the pool that a page is in stands, if any.
    fn pool_place(&self, page: Page) -> Option<usize>
        ensures answer { result ≡ position (λ o. pool_covers o page) self.now.pools }
        ensures within { IfSome result (λ i. i < 8) }
    {
        self.pools
            .iter()
            .position(|pool| pool.is_some_and(|pages| pages.covers(page)))
    }
}

impl RightsBook for IntervalBook {
    ghost rules = { λ b. book_of (ledger b) };

    ghost pools = { λ b g p n. Tidy.pools b.grants.items b.pools g p b.neat n };

    ghost writers = { λ b g h p u v. one_writer b.grants.items b.pools g h p b.neat u v };

    ghost far = { λ b g p l. Tidy.far b.grants.items b.pools g p b.neat l };

    ghost strangers = { λ b g p o. Tidy.strangers b.grants.items b.pools g p b.neat o };

    #[tactic(auto, using(crate::proofs::Grants::granted_more))]
    fn right(&self, guest: Guest, page: Page) -> Right {
        let mut best = Right::Nothing;
        for grant in &self.grants {
            best = best.greater(given(grant, guest, page));
        }
        best
    }

    fn pool(&self, page: Page) -> Option<Guest> {
        let i = self.pool_place(page)?;
        Some(i as Guest + 1)
    }
}
