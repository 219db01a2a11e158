// Both rights books.
use super::numbers::{OK, numbered};
use books::bytes::ByteBook;
use books::grant::Grant;
use books::interval::IntervalBook;
use platform::book::RightsBook;
use platform::right::Right;
use platform::span::Span;
use std::test::*;

// What the rules of the byte book say of a byte and a guest.
fn expected_right(byte: u8, guest: u8) -> Right {
    let writer = byte / 16;
    let reader = byte % 16;
    if !(1..=8).contains(&writer) || !(1..=8).contains(&guest) {
        Right::Nothing
    } else if guest == writer {
        Right::Write
    } else if guest == reader {
        Right::Read
    } else {
        Right::Nothing
    }
}

fn expected_pool(byte: u8) -> Option<u8> {
    let owner = byte % 16;
    (byte >= 240 && (1..=8).contains(&owner)).then_some(owner)
}

#[test]
fn every_byte_of_the_byte_book(rt: HostRuntime) -> Result<(), Fail> {
    let mut bytes = Vec::new(rt.alloc());
    for byte in 0..=255u8 {
        bytes.push(byte)?;
    }
    let book = ByteBook::new(bytes);
    for byte in 0..=255u8 {
        for guest in 0..16u8 {
            assert_eq!(rt;
                book.right(guest, u32::from(byte)),
                expected_right(byte, guest)
            );
        }
        assert_eq!(rt; book.pool(u32::from(byte)), expected_pool(byte));
    }
    assert_eq!(rt; book.right(1, 256), Right::Nothing);
    assert_eq!(rt; book.pool(256), None);
    Ok(())
}

// Byte 0x12: guest 1 has write, guest 2 has read.
#[test]
fn a_byte_past_page_65535_gives_nothing(rt: HostRuntime) -> Result<(), Fail> {
    let book = ByteBook::new(vec![in rt.alloc(); 0x12u8; 65_537]?);
    assert_eq!(rt; book.right(1, 65_535), Right::Write);
    assert_eq!(rt; book.right(2, 65_535), Right::Read);
    assert_eq!(rt; book.right(3, 65_535), Right::Nothing);
    assert_eq!(rt; book.right(1, 65_536), Right::Nothing);
    Ok(())
}

// One pool after another on one book: guest, first page, count, and the refusal.
const POOLS: [(u8, u32, u32, Result<(), u8>); 13] = [
    (0, 100, 1, Err(21)),
    (9, 100, 1, Err(21)),
    (1, 100, 0, Err(24)),
    (1, 100, 1, Err(24)),
    (1, 100, 65, Err(24)),
    (1, 65_535, 2, Err(24)),
    (1, 100, 64, OK),
    (1, 100, 1, Err(24)),
    (1, 200, 2, Err(22)),
    (2, 163, 2, Err(25)),
    (2, 99, 2, Err(25)),
    (2, 164, 2, OK),
    (8, 65_534, 2, OK),
];

#[test]
fn pools_keep_their_limits(rt: HostRuntime) -> Result<(), Fail> {
    let mut book = IntervalBook::new(rt.alloc())?;
    for (guest, first, count, expected) in POOLS {
        let answer = book.set_pool(guest, Span { first, count });
        assert_eq!(rt; numbered(answer), expected);
    }
    assert!(rt; book.has_pool(1));
    assert!(rt; !book.has_pool(3));
    assert!(rt; !book.has_pool(0));
    for (page, owner) in [
        (99u32, None),
        (100, Some(1u8)),
        (163, Some(1)),
        (164, Some(2)),
        (165, Some(2)),
        (166, None),
        (65_535, Some(8)),
    ] {
        assert_eq!(rt; book.pool(page), owner);
    }
    Ok(())
}

// One grant after another on one book with a pool on pages 8 and 9: guest, first page, count, right, and the refusal.
const GRANTS: [(u8, u32, u32, u8, Result<(), u8>); 14] = [
    (0, 0, 0, 0, Err(21)),
    (9, 0, 1, 1, Err(21)),
    (1, 0, 0, 1, Err(24)),
    (1, 0, 1, 0, Err(24)),
    (1, 0, 1, 3, Err(24)),
    (1, 65_535, 2, 1, Err(24)),
    (1, 0, 8, 2, OK),
    (1, 7, 2, 1, Err(25)),
    (1, 9, 1, 1, Err(25)),
    (1, 10, 1, 1, OK),
    (2, 7, 1, 2, Err(25)),
    (2, 7, 1, 1, OK),
    (1, 4, 2, 2, OK),
    (1, 4, 2, 1, OK),
];

// kept: the right is a number, as the rules and a script have it.
fn grant(book: &mut IntervalBook, guest: u8, first: u32, count: u32, right: u8) -> Result<(), u8> {
    let span = Span { first, count };
    let right = Right::from(right);
    numbered(book.grant(Grant { guest, span, right }))
}

#[test]
fn grants_keep_their_limits(rt: HostRuntime) -> Result<(), Fail> {
    let mut book = IntervalBook::new(rt.alloc())?;
    let pool = Span { first: 8, count: 2 };
    assert_eq!(rt; numbered(book.set_pool(3, pool)), OK);
    for (guest, first, count, right, expected) in GRANTS {
        assert_eq!(rt; grant(&mut book, guest, first, count, right), expected);
    }
    // The greatest grant over a page counts: guest, page, right.
    for (guest, page, right) in [
        (1u8, 0u32, Right::Write),
        (1, 4, Right::Write),
        (1, 7, Right::Write),
        (1, 8, Right::Nothing),
        (1, 10, Right::Read),
        (1, 11, Right::Nothing),
        (2, 7, Right::Read),
        (2, 6, Right::Nothing),
        (3, 8, Right::Nothing),
    ] {
        assert_eq!(rt; book.right(guest, page), right);
    }
    Ok(())
}

#[test]
fn a_pool_over_a_grant_is_refused(rt: HostRuntime) -> Result<(), Fail> {
    let mut book = IntervalBook::new(rt.alloc())?;
    assert_eq!(rt; grant(&mut book, 1, 4, 2, 1), OK);
    for (first, expected) in [(2u32, OK), (3, Err(22)), (5, Err(22))] {
        let span = Span { first, count: 2 };
        assert_eq!(rt; numbered(book.set_pool(1, span)), expected);
    }
    for (first, expected) in [(5u32, Err(25)), (6, OK)] {
        let span = Span { first, count: 2 };
        assert_eq!(rt; numbered(book.set_pool(2, span)), expected);
    }
    Ok(())
}

#[test]
fn thirty_two_grants_fit(rt: HostRuntime) -> Result<(), Fail> {
    let mut book = IntervalBook::new(rt.alloc())?;
    for page in 0..32u32 {
        assert_eq!(rt; grant(&mut book, 1, page, 1, 2), OK);
    }
    assert_eq!(rt; grant(&mut book, 1, 40, 1, 2), Err(26));
    assert_eq!(rt; grant(&mut book, 2, 0, 1, 2), Err(26));
    assert_eq!(rt; book.right(1, 31), Right::Write);
    assert_eq!(rt; book.right(1, 40), Right::Nothing);
    Ok(())
}
