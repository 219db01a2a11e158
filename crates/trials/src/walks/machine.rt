// The machine that walks are tried on: flat words and the byte book behind a window.
use super::super::numbers::{OK, numbered};
use books::bytes::ByteBook;
use memories::flat::FlatWords;
use platform::access::Access;
use platform::memory::Memory;
use platform::span::Span;
use platform::units::{Address, Guest, PAGE_WORDS, Page, Place, Word};
use platform::window::Window;
use std::alloc::Global;
use std::process::Abort;
use std::test::*;
use walk::view::View;

// How a walk ends: on a physical page with a right's number, or with a fault status code.
// kept: numbers, as in `numbers.rt`: the rules give a code for each abort and a number for each right.
pub type End = Result<(Page, u8), u8>;

// What the byte book says of the first pages: guest 1 may write pages 0 and 2, read pages 1 and 3, and has
// nothing on page 4, which guest 2 may write, and on page 5, which is in its pool. It may write every other page.
const FIRST_BYTES: [u8; 6] = [0x10, 0x21, 0x10, 0x21, 0x20, 0xF1];

const OTHER_BYTE: u8 = 0x10;

// The book says something of 40 pages, the window shows pages 0 to 33, and the memory has pages 0 to 31.
const BOOK_COUNT: usize = 40;

const WINDOW_COUNT: u32 = 34;

const MEMORY_COUNT: u32 = 32;

#[derive(Drop)]
pub struct Machine {
    memory: FlatWords,
    book: ByteBook,
    window: Window,
}

impl Machine {
    // A machine on which physical page 0 is guest page `first`, and every word is 0.
    pub fn new(heap: Global, first: Page) -> Result<Machine, Fail> {
        let mut bytes = Vec::new(heap);
        bytes.extend_from_slice(&FIRST_BYTES)?;
        for _ in FIRST_BYTES.len()..BOOK_COUNT {
            bytes.push(OTHER_BYTE)?;
        }
        let words = vec![in heap; 0u32; (MEMORY_COUNT * PAGE_WORDS) as usize]?;
        let pages = Span {
            first,
            count: WINDOW_COUNT,
        };
        let Ok(window) = Window::new(pages) else {
            return Err(Fail::new("no window"));
        };
        Ok(Machine {
            memory: FlatWords::new(words),
            book: ByteBook::new(bytes),
            window,
        })
    }

    // Puts a word at a place of a physical page.
    pub fn put(
        &mut self,
        rt: &impl Abort,
        page: Page,
        place: Place,
        word: Word,
    ) -> Result<(), Fail> {
        assert_eq!(rt; numbered(self.memory.write(page, place, word)), OK);
        Ok(())
    }

    // How a walk of a guest ends.
    fn end(&self, guest: Guest, base: Option<Page>, va: Address, access: Access) -> End {
        let view = View {
            memory: &self.memory,
            book: &self.book,
            window: self.window,
            guest,
        };
        match view.translate(base, va, access) {
            Ok(mapping) => Ok((mapping.page, u8::from(mapping.right))),
            Err(abort) => Err(u8::from(abort)),
        }
    }

    // Checks how a guest's read of an address ends.
    pub fn reads(
        &self,
        rt: &impl Abort,
        guest: Guest,
        base: Option<Page>,
        va: Address,
        end: End,
    ) -> Result<(), Fail> {
        assert_eq!(rt; self.end(guest, base, va, Access::Read), end);
        Ok(())
    }

    // Checks how guest 1's read and its write of an address end.
    pub fn ends(
        &self,
        rt: &impl Abort,
        base: Option<Page>,
        va: Address,
        read: End,
        write: End,
    ) -> Result<(), Fail> {
        self.reads(rt, 1, base, va, read)?;
        assert_eq!(rt; self.end(1, base, va, Access::Write), write);
        Ok(())
    }
}
