// A guest's view of memory, and the steps of the walk on it.
ghost use Rattle.std.specs.Prelude.{◌≡◌};
ghost use Rattle.std.specs.Option.{ok_or};
ghost use Rattle.platform.specs.Windows.{pane};
ghost use Rattle.walk.specs.Sights.{permits};
ghost use Rattle.walk.specs.Views.{seen_by};
ghost use Rattle.walk.specs.Walks.{ask_first, ask_on, ask_off, reached, granted, walk_answer};
ghost use Rattle.walk.specs.Laws.{MappingIsAllowed};

use crate::abort::Abort;
use crate::mapping::{Ask, Mapping};
use descriptor::address::first_index;
use descriptor::entry::{FirstLevel, SecondLevel, first_level, second_level};
use platform::access::Access;
use platform::address::page_of;
use platform::book::RightsBook;
use platform::memory::Memory;
use platform::right::Right;
use platform::units::{Address, Guest, Page, Place, Word};
use platform::window::Window;

// Guests have no address from here up: the second base register is not walked.
const ADDRESS_LIMIT: Address = 0x4000_0000;

// Whether a right is enough for an access.
fn permits(right: Right, access: Access) -> bool
    ensures answer { result ≡ permits right access }
{
    match access {
        Access::Read => right >= Right::Read,
        Access::Write => right >= Right::Write,
    }
}

// A guest, and what it looks through: the memory, the book and the window.
#[derive(Drop)]
pub struct View<'m, 'b, M, B> {
    pub memory: &'m M,
    pub book: &'b B,
    pub window: Window,
    pub guest: Guest,
}

impl<'m, 'b, M: Memory, B: RightsBook> View<'m, 'b, M, B> {
    // The guest's right on a guest page.
    fn right_on(&self, page: Page) -> Right
        ensures answer { result ≡ (seen_by M.contents B.rules self.now).may page }
    {
        let Some(at) = self.window.physical(page) else {
            return Right::Nothing;
        };
        self.book.right(self.guest, at)
    }

    // A table word on a guest page, which is read only if the guest may read it; else the abort.
    fn table_word(&self, page: Page, place: Place, abort: Abort) -> Result<Word, Abort>
        ensures answer { result ≡ ok_or ((seen_by M.contents B.rules self.now).seen page place) abort }
    {
        let at = self.window.physical(page).ok_or(abort)?;
        if !permits(self.book.right(self.guest, at), Access::Read) {
            return Err(abort);
        }
        self.memory.read(at, place).map_err(|_| abort)
    }

    // What a first-level word asks for, with the second-level word that it names.
    fn ask_first(&self, word: Word, va: Address) -> Result<Ask, Abort>
        ensures answer { result ≡ ask_first (seen_by M.contents B.rules self.now) word va }
    {
        match first_level(word, va) {
            FirstLevel::Invalid | FirstLevel::Supersection => Err(Abort::SectionTranslation),
            FirstLevel::Section { page, right } => Ok(Ask {
                page,
                right,
                denied: Abort::SectionPermission,
            }),
            FirstLevel::Table { page, place } => {
                let next = self.table_word(page, place, Abort::SecondLevelWalk)?;
                match second_level(next, va) {
                    SecondLevel::Invalid => Err(Abort::PageTranslation),
                    SecondLevel::LargePage { page, right }
                    | SecondLevel::SmallPage { page, right } => Ok(Ask {
                        page,
                        right,
                        denied: Abort::PagePermission,
                    }),
                }
            }
        }
    }

    // What the guest's tables ask for.
    fn ask_on(&self, base: Page, va: Address) -> Result<Ask, Abort>
        ensures answer { result ≡ ask_on (seen_by M.contents B.rules self.now) base va }
    {
        if va >= ADDRESS_LIMIT {
            return Err(Abort::SectionTranslation);
        }
        let word = self.table_word(base, first_index(va), Abort::FirstLevelWalk)?;
        self.ask_first(word, va)
    }

    // With paging off the address's own page is asked for, with the right that the book gives.
    fn ask_off(&self, va: Address) -> Result<Ask, Abort>
        ensures answer { result ≡ ask_off (seen_by M.contents B.rules self.now) va }
    {
        if va >= ADDRESS_LIMIT {
            return Err(Abort::External);
        }
        let page = page_of(va);
        Ok(Ask {
            page,
            right: self.right_on(page),
            denied: Abort::External,
        })
    }

    // The mapping of a guest page with the right asked for, if the guest may have it.
    fn reach(&self, page: Page, right: Right) -> Result<Mapping, Abort>
        ensures answer { result ≡ reached (seen_by M.contents B.rules self.now) page right }
    {
        let at = self.window.physical(page).ok_or(Abort::External)?;
        if !self.memory.has(at) || self.book.right(self.guest, at) < right {
            return Err(Abort::External);
        }
        Ok(Mapping { page: at, right })
    }

    // The mapping asked for, if its right is enough for the access and the guest may have it.
    fn grant(&self, ask: Ask, access: Access) -> Result<Mapping, Abort>
        ensures answer { result ≡ granted (seen_by M.contents B.rules self.now) access ask }
    {
        if !permits(ask.right, access) {
            return Err(ask.denied);
        }
        self.reach(ask.page, ask.right)
    }

    // What an address leads to: a mapping, or the abort that the guest takes. `base` is the guest page of the guest's
    // first-level table, and none while its paging is off. Memory and book are only asked: with paging on, one word
    // is read for a section and two for a page.
    pub fn translate(
        &self,
        base: Option<Page>,
        va: Address,
        access: Access,
    ) -> Result<Mapping, Abort>
        ensures answer { result ≡ walk_answer (seen_by M.contents B.rules self.now) base va access }
        ensures law { MappingIsAllowed (M.contents self.now.memory.now) (B.rules self.now.book.now) (pane self.now.window) self.now.guest access result }
    {
        let ask = match base {
            None => self.ask_off(va)?,
            Some(page) => self.ask_on(page, va)?,
        };
        self.grant(ask, access)
    }
}
