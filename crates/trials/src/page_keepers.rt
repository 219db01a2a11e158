// Both page keepers.
use super::numbers::{OK, numbered};
use keepers::marks::MarksKeeper;
use keepers::stack::StackKeeper;
use keepers::uses::exchange;
use platform::keeper::PageKeeper;
use platform::units::{GUESTS, Guest, Page};
use std::process::Abort;
use std::test::*;

// One enrolment after another on a keeper without pages: guest, page, and the refusal.
const ENROLMENTS: [(Guest, Page, Result<(), u8>); 10] = [
    (0, 10, Err(21)),
    (9, 10, Err(21)),
    (1, 10, OK),
    (1, 10, Err(33)),
    (2, 10, Err(33)),
    (0, 10, Err(21)),
    (9, 10, Err(21)),
    (8, 20, OK),
    (1, 20, Err(33)),
    (7, 20, Err(33)),
];

// How many pages of each guest are then free.
const FREE_COUNTS: [(Guest, Result<u32, u8>); 5] = [
    (0, Err(21)),
    (1, Ok(1)),
    (2, Ok(0)),
    (8, Ok(1)),
    (9, Err(21)),
];

// One take after another: guest, and the page or the refusal.
const TAKES: [(Guest, Result<Page, u8>); 5] = [
    (0, Err(21)),
    (9, Err(21)),
    (2, Err(33)),
    (1, Ok(10)),
    (1, Err(33)),
];

// With page 10 taken and page 20 free: guest, the page that it gives, and the refusal.
const GIVES: [(Guest, Page, Result<(), u8>); 9] = [
    (0, 10, Err(21)),
    (9, 10, Err(21)),
    (2, 10, Err(33)),
    (8, 10, Err(33)),
    (1, 11, Err(33)),
    (1, 20, Err(33)),
    (8, 20, Err(33)),
    (1, 10, OK),
    (1, 10, Err(33)),
];

// What the rules say of any keeper without pages.
fn keeps_its_meaning<K: PageKeeper>(rt: &impl Abort, keeper: &mut K) -> Result<(), Fail> {
    for (guest, page, expected) in ENROLMENTS {
        assert_eq!(rt; numbered(keeper.enrol(guest, page)), expected);
    }
    for (guest, expected) in FREE_COUNTS {
        assert_eq!(rt; numbered(keeper.free_count(guest)), expected);
    }
    for (guest, expected) in TAKES {
        assert_eq!(rt; numbered(keeper.take(guest)), expected);
    }
    assert_eq!(rt; numbered(keeper.free_count(1)), Ok(0));
    assert_eq!(rt; numbered(keeper.free_count(8)), Ok(1));
    for (guest, page, expected) in GIVES {
        assert_eq!(rt; numbered(keeper.give(guest, page)), expected);
    }
    assert_eq!(rt; numbered(keeper.free_count(1)), Ok(1));
    keeps_64_pages(rt, keeper)?;
    keeper.empty();
    for guest in 1..=GUESTS {
        assert_eq!(rt; numbered(keeper.free_count(guest)), Ok(0));
    }
    assert_eq!(rt; numbered(keeper.give(3, 100)), Err(33));
    assert_eq!(rt; numbered(keeper.enrol(2, 10)), OK);
    Ok(())
}

// Guest 3 enrols pages 100 to 163, and takes each of them once.
fn keeps_64_pages<K: PageKeeper>(rt: &impl Abort, keeper: &mut K) -> Result<(), Fail> {
    for page in 100..164u32 {
        assert_eq!(rt; numbered(keeper.enrol(3, page)), OK);
    }
    assert_eq!(rt; numbered(keeper.enrol(3, 164)), Err(33));
    assert_eq!(rt; numbered(keeper.enrol(4, 164)), OK);
    let mut taken = [false; 64];
    for free in (1..=64u32).rev() {
        assert_eq!(rt; numbered(keeper.free_count(3)), Ok(free));
        let Ok(page) = keeper.take(3) else {
            return Err(Fail::new("a free page is not taken"));
        };
        assert!(rt; (100..164).contains(&page));
        assert!(rt; !taken[(page - 100) as usize]);
        taken[(page - 100) as usize] = true;
    }
    assert_eq!(rt; numbered(keeper.free_count(3)), Ok(0));
    assert_eq!(rt; numbered(keeper.take(3)), Err(33));
    assert_eq!(rt; numbered(keeper.enrol(3, 165)), Err(33));
    Ok(())
}

#[test]
fn the_stack_keeps_its_meaning(rt: HostRuntime) -> Result<(), Fail> {
    keeps_its_meaning(&rt, &mut StackKeeper::new(rt.alloc())?)
}

#[test]
fn the_marks_keep_their_meaning(rt: HostRuntime) -> Result<(), Fail> {
    keeps_its_meaning(&rt, &mut MarksKeeper::new(rt.alloc())?)
}

// A call for guest 1: it enrols a page, gives one back, or takes this one, where there is one to take.
#[derive(Clone, Copy)]
enum Step {
    Enrols(Page),
    Gives(Page),
    Takes(Option<Page>),
}

// Each call of a list is answered so.
fn follows<K: PageKeeper>(rt: &impl Abort, keeper: &mut K, steps: &[Step]) -> Result<(), Fail> {
    for step in steps {
        match *step {
            Step::Enrols(page) => assert_eq!(rt; numbered(keeper.enrol(1, page)), OK),
            Step::Gives(page) => assert_eq!(rt; numbered(keeper.give(1, page)), OK),
            Step::Takes(page) => assert_eq!(rt; numbered(keeper.take(1)), page.ok_or(33)),
        }
    }
    Ok(())
}

const STACK_STEPS: [Step; 14] = [
    Step::Enrols(10),
    Step::Enrols(11),
    Step::Enrols(12),
    Step::Takes(Some(12)),
    Step::Takes(Some(11)),
    Step::Gives(12),
    Step::Takes(Some(12)),
    Step::Takes(Some(10)),
    Step::Takes(None),
    Step::Gives(10),
    Step::Gives(12),
    Step::Enrols(13),
    Step::Takes(Some(13)),
    Step::Takes(Some(12)),
];

#[test]
fn the_stack_takes_the_last_given(rt: HostRuntime) -> Result<(), Fail> {
    follows(&rt, &mut StackKeeper::new(rt.alloc())?, &STACK_STEPS)
}

const MARKS_STEPS: [Step; 15] = [
    Step::Enrols(10),
    Step::Enrols(11),
    Step::Enrols(12),
    Step::Enrols(13),
    Step::Takes(Some(10)),
    Step::Takes(Some(11)),
    Step::Gives(10),
    Step::Takes(Some(12)),
    Step::Takes(Some(13)),
    Step::Takes(Some(10)),
    Step::Takes(None),
    Step::Gives(10),
    Step::Gives(12),
    Step::Takes(Some(12)),
    Step::Takes(Some(10)),
];

#[test]
fn the_marks_go_round(rt: HostRuntime) -> Result<(), Fail> {
    follows(&rt, &mut MarksKeeper::new(rt.alloc())?, &MARKS_STEPS)
}

// With pages 10, 11 and 12 of guest 2, of which 11 is free: guest, page, and the refusal of an exchange.
const NO_EXCHANGES: [(Guest, Page, u8); 5] = [
    (0, 10, 21),
    (9, 10, 21),
    (2, 11, 33),
    (2, 13, 33),
    (1, 10, 33),
];

// Enrols three pages, takes one, and exchanges pages in turn: the page given back, and the page taken.
fn exchanges<K: PageKeeper>(
    rt: &impl Abort,
    keeper: &mut K,
    pairs: &[(Page, Page)],
) -> Result<(), Fail> {
    for page in 10..13u32 {
        assert_eq!(rt; numbered(keeper.enrol(2, page)), OK);
    }
    assert!(rt; keeper.take(2).is_ok());
    for (guest, page, expected) in NO_EXCHANGES {
        assert_eq!(rt; numbered(exchange(keeper, guest, page)), Err(expected));
    }
    for &(page, expected) in pairs {
        assert_eq!(rt; numbered(exchange(keeper, 2, page)), Ok(expected));
        assert_eq!(rt; numbered(keeper.free_count(2)), Ok(2));
    }
    Ok(())
}

#[test]
fn exchanges_take_as_each_keeper_does(rt: HostRuntime) -> Result<(), Fail> {
    exchanges(
        &rt,
        &mut StackKeeper::new(rt.alloc())?,
        &[(12, 12), (12, 12)],
    )?;
    exchanges(
        &rt,
        &mut MarksKeeper::new(rt.alloc())?,
        &[(10, 11), (11, 12), (12, 10)],
    )
}
