// A memory of a few pages, listed by their numbers.
ghost use Rattle.std.specs.Prelude.{◌≤◌, vec_len, vec_capacity};

use platform::units::{Page, Word};

mod setup;
mod words;

// As many pages can be listed.
const ROOM: usize = 12;

// A listed page and its words.
#[derive(Drop)]
pub struct ListedPage {
    number: Page,
    words: [Word; 1024],
}

// Up to 12 pages, each under its number, no number twice. The table is made once, at its full size.
// kept: a list that is searched, and no map. Its room is fixed, and no call but `new` may allocate.
// kept: no `impl Model`. It was tried, and the check refuses a `Value` that has a function in it, as a catalog has.
#[derive(Drop)]
pub struct ListedPages {
    pages: Vec<ListedPage>,
    ghost room: { (vec_len pages ≤ 12) × (12 ≤ vec_capacity pages) },
}
