// A memory of words in one row, 1,024 to a page.
ghost use Rattle.std.specs.Prelude.{◌≡◌};
ghost use Rattle.memories.specs.Flat.{flat, flat_place};

use platform::memory::Memory;
use platform::refusal::Refusal;
use platform::units::{PAGE_WORDS, Page, Place, Word};

// The words of pages 0 upward. A page that the words do not fill is not there.
#[derive(Drop)]
pub struct FlatWords {
    words: Vec<Word>,
}

impl FlatWords {
    // The memory that some words are.
    pub fn new(words: Vec<Word>) -> FlatWords
        ensures answer { flat result.words.items ≡ flat words.items }
    {
        FlatWords { words }
    }

    // Where a word stands in the row.
    fn index(&self, page: Page, place: Place) -> Result<usize, Refusal>
        ensures answer { result ≡ flat_place self.now.words.items page place }
    {
        if !self.has(page) || place >= PAGE_WORDS {
            return Err(Refusal::NoSuchWord);
        }
        Ok(page as usize * PAGE_WORDS as usize + place as usize)
    }
}

impl Memory for FlatWords {
    ghost contents = { λ s. flat s.words.items };

    fn has(&self, page: Page) -> bool {
        (page as usize + 1) * PAGE_WORDS as usize <= self.words.len()
    }

    fn read(&self, page: Page, place: Place) -> Result<Word, Refusal> {
        let i = self.index(page, place)?;
        Ok(self.words[i])
    }

    #[tactic(auto, using(crate::proofs::Flats::flat_put))]
    fn write(&mut self, page: Page, place: Place, word: Word) -> Result<(), Refusal> {
        let i = self.index(page, place)?;
        self.words[i] = word;
        Ok(())
    }
}
