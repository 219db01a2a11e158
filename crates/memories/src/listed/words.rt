// The words of listed pages, as a memory.
ghost use Rattle.std.specs.Prelude.{◌≡◌};
ghost use Rattle.platform.specs.Memories.{write_answer};
ghost use Rattle.memories.specs.Listed.{catalog, catalog_written};

use super::ListedPages;
use platform::memory::Memory;
use platform::refusal::Refusal;
use platform::units::{PAGE_WORDS, Page, Place, Word};

impl ListedPages {
    // Puts a word at a place of a listed page.
    #[tactic(auto, using(crate::proofs::Tables::tables))]
    pub fn put(&mut self, page: Page, place: Place, word: Word) -> Result<(), Refusal>
        ensures answer { result ≡ write_answer (catalog self.old).mem page place }
        ensures after { catalog self.new ≡ catalog_written (catalog self.old) page place word }
    {
        if place >= PAGE_WORDS {
            return Err(Refusal::NoSuchWord);
        }
        let i = self.find(page).ok_or(Refusal::NoSuchWord)?;
        self.pages[i].words[place as usize] = word;
        Ok(())
    }
}

impl Memory for ListedPages {
    ghost contents = { λ s. (catalog s).mem };

    #[tactic(auto, using(crate::proofs::Tables::lists_found))]
    fn has(&self, page: Page) -> bool {
        self.find(page).is_some()
    }

    #[tactic(auto, using(crate::proofs::Tables::tables))]
    fn read(&self, page: Page, place: Place) -> Result<Word, Refusal> {
        if place >= PAGE_WORDS {
            return Err(Refusal::NoSuchWord);
        }
        let i = self.find(page).ok_or(Refusal::NoSuchWord)?;
        Ok(self.pages[i].words[place as usize])
    }

    fn write(&mut self, page: Page, place: Place, word: Word) -> Result<(), Refusal> {
        self.put(page, place, word)
    }
}
