// Setting up the interval book.
ghost use Rattle.std.specs.Prelude.{◌≡◌, IfOk};
ghost use Rattle.books.specs.Intervals.{clashes, any_clash, over_grant, pool_overlaps, over_pool, has_pool, blank, grant_answer, grant_after, pool_answer, pool_after};
ghost use Rattle.books.specs.Ledgers.{ledger};

use super::{IntervalBook, ROOM};
use crate::grant::Grant;
use platform::guest::place_of;
use platform::refusal::Refusal;
use platform::right::Right;
use platform::span::Span;
use platform::units::Guest;
use std::alloc::{AllocError, Global};

// The fewest and the most pages of a pool.
const POOL_LEAST: u32 = 2;

const POOL_MOST: u32 = 64;

// Whether two grants let two guests write one page.
fn clash(x: &Grant, y: &Grant) -> bool
    ensures answer { result ≡ clashes x.now y.now }
{
    x.guest != y.guest
        && x.span.overlaps(y.span)
        && x.right == Right::Write
        && y.right == Right::Write
}

impl IntervalBook {
    // No grant and no pool yet.
    pub fn new(heap: Global) -> Result<Self, AllocError>
        ensures answer { IfOk result (λ b. ledger b ≡ blank) }
    {
        let grants = Vec::with_capacity(heap, ROOM)?;
        Ok(IntervalBook {
            grants,
            pools: [None; 8],
        })
    }

    // Whether a new grant and one that is there let two guests write one page.
    fn writes_meet(&self, new: &Grant) -> bool
        ensures answer { result ≡ any_clash self.now.grants.items new.now }
    {
        self.grants.iter().any(|grant| clash(grant, new))
    }

    // Whether some grant lies over a span.
    fn is_granted(&self, span: Span) -> bool
        ensures answer { result ≡ over_grant self.now.grants.items span }
    {
        self.grants.iter().any(|grant| grant.span.overlaps(span))
    }

    // Whether some pool lies over a span.
    fn is_pooled(&self, span: Span) -> bool
        ensures answer { result ≡ over_pool self.now.pools span }
    {
        self.pools
            .iter()
            .any(|pool| pool.is_some_and(|pages| pages.overlaps(span)))
    }

    // Whether a guest has a pool.
    pub fn has_pool(&self, guest: Guest) -> bool
        ensures answer { result ≡ has_pool (ledger self.now).pools guest }
    {
        place_of(guest).is_ok_and(|i| self.pools[i].is_some())
    }

    // Adds a grant.
    #[tactic(auto, using(crate::specs::Tidy::tidy_grant))]
    pub fn grant(&mut self, new: Grant) -> Result<(), Refusal>
        ensures answer { result ≡ grant_answer (ledger self.old) new }
        ensures after { ledger self.new ≡ grant_after (ledger self.old) new }
    {
        place_of(new.guest)?;
        if !new.span.fits_book() || new.right == Right::Nothing {
            return Err(Refusal::OutOfLimits);
        }
        if self.grants.len() >= ROOM {
            return Err(Refusal::TableFull);
        }
        if self.is_pooled(new.span) || self.writes_meet(&new) {
            return Err(Refusal::Conflict);
        }
        self.grants.push_reserved(new);
        Ok(())
    }

    // Gives a guest its pool.
    #[tactic(auto, using(crate::specs::Tidy::tidy_pool))]
    pub fn set_pool(&mut self, guest: Guest, span: Span) -> Result<(), Refusal>
        ensures answer { result ≡ pool_answer (ledger self.old) guest span }
        ensures after { ledger self.new ≡ pool_after (ledger self.old) guest span }
    {
        let i = place_of(guest)?;
        if !span.fits_book() || span.count < POOL_LEAST || span.count > POOL_MOST {
            return Err(Refusal::OutOfLimits);
        }
        if self.has_pool(guest) {
            return Err(Refusal::AlreadySetUp);
        }
        if self.is_granted(span) || self.is_pooled(span) {
            return Err(Refusal::Conflict);
        }
        self.pools[i] = Some(span);
        Ok(())
    }
}
