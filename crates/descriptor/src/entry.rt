// What table words say at an address.
ghost use Rattle.std.specs.Prelude.{◌≡◌};
ghost use Rattle.descriptor.specs.Entries.{entry_type, is_supersection, section_page, table_page, table_place, large_page, small_page, first_level, second_level};

use crate::bits::{bits, join};
use crate::permission::{page_permission, permitted, section_permission};
use platform::right::Right;
use platform::units::{Address, Page, Place, Word};

// What a first-level word says at an address. Pages are guest pages in a guest's tables.
// kept: `page` and `right` stand side by side in three cases and are no struct; whoever matches takes them apart at once.
#[derive(Clone, Copy, Debug, PartialEq, Eq)]
pub enum FirstLevel {
    // No translation.
    Invalid,
    // A second-level table: the page that holds it, and the place of the address's word there.
    Table { page: Page, place: Place },
    // A section: the address's page in it, and the right that it gives.
    Section { page: Page, right: Right },
    // A section of sixteen times the size.
    Supersection,
}

// What a second-level word says at an address.
#[derive(Clone, Copy, Debug, PartialEq, Eq)]
pub enum SecondLevel {
    // No translation.
    Invalid,
    // A page of sixteen times the size: the address's page in it, and the right that it gives.
    LargePage { page: Page, right: Right },
    // A page and its right.
    SmallPage { page: Page, right: Right },
}

// The type of a table word: bits 1 and 0.
// kept: a number. Each level reads it in its own way, and turns it into a case of `FirstLevel` or `SecondLevel` at once.
fn entry_type(word: Word) -> u32
    ensures answer { result ≡ entry_type word }
{
    bits(word, 1, 0)
}

// Whether a section's word has bit 18 set.
fn is_supersection(word: Word) -> bool
    ensures answer { result ≡ is_supersection word }
{
    bits(word, 18, 18) == 1
}

// kept: each of the five is one expression, and carries the format's name for what it gives; two take the same bits, of words of two levels.

// The page of an address in a section: bits 31 to 20 of the word, then bits 19 to 12 of the address.
pub fn section_page(word: Word, va: Address) -> Page
    ensures answer { result ≡ section_page word va }
{
    join(bits(word, 31, 20), 8, bits(va, 19, 12))
}

// The page of a second-level table: bits 31 to 12.
pub fn table_page(word: Word) -> Page
    ensures answer { result ≡ table_page word }
{
    bits(word, 31, 12)
}

// The place of an address's word in the page of a second-level table: bits 11 and 10 of the word, then bits 19 to 12 of the address.
pub fn table_place(word: Word, va: Address) -> Place
    ensures answer { result ≡ table_place word va }
{
    join(bits(word, 11, 10), 8, bits(va, 19, 12))
}

// The page of an address in a large page: bits 31 to 16 of the word, then bits 15 to 12 of the address.
pub fn large_page(word: Word, va: Address) -> Page
    ensures answer { result ≡ large_page word va }
{
    join(bits(word, 31, 16), 4, bits(va, 15, 12))
}

// A small page: bits 31 to 12.
pub fn small_page(word: Word) -> Page
    ensures answer { result ≡ small_page word }
{
    bits(word, 31, 12)
}

// What a first-level word says.
// kept: a word and an address are two parameters, and no struct, which each caller would make for one call.
pub fn first_level(word: Word, va: Address) -> FirstLevel
    ensures answer { result ≡ first_level word va }
{
    match entry_type(word) {
        1 => FirstLevel::Table {
            page: table_page(word),
            place: table_place(word, va),
        },
        2 if is_supersection(word) => FirstLevel::Supersection,
        2 => FirstLevel::Section {
            page: section_page(word, va),
            right: permitted(section_permission(word)),
        },
        _ => FirstLevel::Invalid,
    }
}

// What a second-level word says.
pub fn second_level(word: Word, va: Address) -> SecondLevel
    ensures answer { result ≡ second_level word va }
{
    match entry_type(word) {
        0 => SecondLevel::Invalid,
        1 => SecondLevel::LargePage {
            page: large_page(word, va),
            right: permitted(page_permission(word)),
        },
        _ => SecondLevel::SmallPage {
            page: small_page(word),
            right: permitted(page_permission(word)),
        },
    }
}
