// Windows and listed pages at their limits.
use super::numbers::{OK, numbered};
use memories::listed::ListedPages;
use platform::memory::Memory;
use platform::span::Span;
use platform::window::Window;
use std::test::*;

// First guest page, count of pages, and the refusal.
const WINDOWS: [(u32, u32, Result<(), u8>); 9] = [
    (0, 1, OK),
    (0, 0, Err(27)),
    (0, 65_536, OK),
    (0, 65_537, Err(27)),
    (983_040, 65_536, OK),
    (983_041, 65_536, Err(27)),
    (1_048_575, 1, OK),
    (1_048_576, 1, Err(27)),
    (4_294_967_295, 65_536, Err(27)),
];

#[test]
fn windows_keep_their_limits(rt: HostRuntime) -> Result<(), Fail> {
    for (first, count, expected) in WINDOWS {
        let counted = Window::new(Span { first, count }).map(|window| window.count());
        assert_eq!(rt; numbered(counted), expected.map(|()| count));
    }
    Ok(())
}

// One span after another on one memory: first page, count, and the refusal.
const LISTINGS: [(u32, u32, Result<(), u8>); 13] = [
    (0, 0, Err(24)),
    (65_536, 1, Err(24)),
    (65_535, 2, Err(24)),
    (4_294_967_295, 4_294_967_295, Err(24)),
    (0, 13, Err(26)),
    (65_535, 1, OK),
    (0, 10, OK),
    (9, 1, Err(25)),
    (8, 1, Err(25)),
    (10, 2, Err(26)),
    (9, 2, Err(26)),
    (20, 1, OK),
    (20, 1, Err(26)),
];

#[test]
fn twelve_pages_are_listed(rt: HostRuntime) -> Result<(), Fail> {
    let mut memory = ListedPages::new(rt.alloc())?;
    for (first, count, expected) in LISTINGS {
        let answer = memory.list(Span { first, count });
        assert_eq!(rt; numbered(answer), expected);
    }
    assert!(rt; memory.has(0));
    assert!(rt; memory.has(9));
    assert!(rt; !memory.has(10));
    assert!(rt; memory.has(20));
    assert!(rt; memory.has(65_535));
    Ok(())
}
