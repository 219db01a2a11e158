// Listing pages, and finding them again.
ghost use Rattle.std.specs.Prelude.{◌≡◌, ◌<◌, true, IfOk, IfSome, vec_len};
ghost use Rattle.platform.specs.Spans.{fits_book};
ghost use Rattle.memories.specs.Listed.{blank_page, catalog, empty, found_at, with_blank, any_had, list_answer, list_after};

use super::{ListedPage, ListedPages, ROOM};
use platform::memory::Memory;
use platform::refusal::Refusal;
use platform::span::Span;
use platform::units::Page;
use std::alloc::{AllocError, Global};

impl ListedPage {
    // A page with words that are all 0.
    fn blank(number: Page) -> Self
        ensures answer { result ≡ blank_page number }
    {
        ListedPage {
            number,
            words: [0; 1024],
        }
    }
}

impl ListedPages {
    // No page yet, and room for all.
    pub fn new(heap: Global) -> Result<Self, AllocError>
        ensures answer { IfOk result (λ v. catalog v ≡ empty) }
    {
        let pages = Vec::with_capacity(heap, ROOM)?;
        Ok(ListedPages { pages })
    }

    // Where a page stands in the table.
    pub(super) fn find(&self, page: Page) -> Option<usize>
        ensures answer { result ≡ found_at self.now.pages.items page }
        ensures within { IfSome result (λ i. i < vec_len self.now.pages) }
    {
        self.pages.iter().position(|listed| listed.number == page)
    }

    // Whether some page of a span is listed.
    fn holds_any(&self, span: Span) -> bool
        requires { fits_book span ≡ true }
        ensures answer { result ≡ any_had (catalog self.now).mem span.first span.count }
    {
        (span.first..span.first + span.count).any(|page| self.has(page))
    }

    // One page more, with words that are all 0.
    fn add_blank(&mut self, page: Page)
        requires { vec_len self.old.pages < 12 }
        ensures after { catalog self.new ≡ with_blank (catalog self.old) page }
    {
        self.pages.push_reserved(ListedPage::blank(page));
    }

    // Lists each page of a span, with words that are all 0, or none of them.
    #[tactic(auto, using(crate::proofs::Tables::blanks_count))]
    pub fn list(&mut self, span: Span) -> Result<(), Refusal>
        ensures answer { result ≡ list_answer (catalog self.old) span }
        ensures after { catalog self.new ≡ list_after (catalog self.old) span }
    {
        if !span.fits_book() {
            return Err(Refusal::OutOfLimits);
        }
        if self.pages.len() + span.count as usize > ROOM {
            return Err(Refusal::TableFull);
        }
        if self.holds_any(span) {
            return Err(Refusal::Conflict);
        }
        for page in span.first..span.first + span.count {
            self.add_blank(page);
        }
        Ok(())
    }
}
