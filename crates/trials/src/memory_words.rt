// Words of both memories.
use super::numbers::{OK, numbered};
use memories::flat::FlatWords;
use memories::listed::ListedPages;
use platform::memory::Memory;
use platform::span::Span;
use platform::units::PAGE_WORDS;
use std::process::Abort;
use std::test::*;

// Pages 0 and 1 are there and page 2 is not: page, place, and the refusal of a write.
const WRITES: [(u32, u32, Result<(), u8>); 9] = [
    (0, 0, OK),
    (0, 1023, OK),
    (0, 1024, Err(32)),
    (1, 0, OK),
    (1, 1023, OK),
    (1, 1024, Err(32)),
    (2, 0, Err(32)),
    (65_536, 0, Err(32)),
    (4_294_967_295, 4_294_967_295, Err(32)),
];

// A write changes the named word and no neighbour, and a refused one none.
fn keeps_words<M: Memory>(rt: &impl Abort, memory: &mut M) -> Result<(), Fail> {
    for (page, place, expected) in WRITES {
        assert_eq!(rt; numbered(memory.write(page, place, 7)), expected);
    }
    assert_eq!(rt; memory.read(0, 0).ok(), Some(7));
    assert_eq!(rt; memory.read(0, 1).ok(), Some(0));
    assert_eq!(rt; memory.read(0, 1023).ok(), Some(7));
    assert_eq!(rt; memory.read(1, 0).ok(), Some(7));
    assert_eq!(rt; memory.read(1, 1).ok(), Some(0));
    assert_eq!(rt; memory.read(0, 1024).ok(), None);
    assert_eq!(rt; memory.read(1, 1024).ok(), None);
    assert_eq!(rt; memory.read(2, 0).ok(), None);
    assert!(rt; memory.has(1));
    assert!(rt; !memory.has(2));
    Ok(())
}

#[test]
fn listed_pages_keep_words(rt: HostRuntime) -> Result<(), Fail> {
    let mut memory = ListedPages::new(rt.alloc())?;
    let pages = Span { first: 0, count: 2 };
    assert_eq!(rt; numbered(memory.list(pages)), OK);
    keeps_words(&rt, &mut memory)
}

// The third page lacks one word.
#[test]
fn flat_words_keep_words(rt: HostRuntime) -> Result<(), Fail> {
    let words = vec![in rt.alloc(); 0u32; 3 * PAGE_WORDS as usize - 1]?;
    keeps_words(&rt, &mut FlatWords::new(words))
}
