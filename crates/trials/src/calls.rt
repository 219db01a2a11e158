// The guests' records and the calls that touch no table.
use super::numbers::{OK, numbered};
use guests::table::Guests;
use std::test::*;

// One guest after another: whether it can be admitted, and then scheduled.
const ADMISSIONS: [(u8, Result<(), u8>, Result<(), u8>); 6] = [
    (0, Err(21), Err(21)),
    (9, Err(21), Err(21)),
    (255, Err(21), Err(21)),
    (1, OK, OK),
    (1, Err(22), OK),
    (8, OK, OK),
];

#[test]
fn guests_are_admitted_once(rt: HostRuntime) -> Result<(), Fail> {
    let mut guests = Guests::new();
    assert_eq!(rt; numbered(guests.schedule(1)), Err(28));
    for (guest, admitted, scheduled) in ADMISSIONS {
        assert_eq!(rt; numbered(guests.admit(guest)), admitted);
        assert_eq!(rt; numbered(guests.schedule(guest)), scheduled);
    }
    assert_eq!(rt; numbered(guests.schedule(2)), Err(28));
    Ok(())
}

#[test]
fn calls_want_a_running_guest(rt: HostRuntime) -> Result<(), Fail> {
    let mut guests = Guests::new();
    assert_eq!(rt; numbered(guests.admit(4)), OK);
    assert_eq!(rt; numbered(guests.switch(0x4000)), Err(29));
    assert_eq!(rt; numbered(guests.set_paging(true)), Err(29));
    assert_eq!(rt; numbered(guests.status()), Err(29));
    assert_eq!(rt; numbered(guests.schedule(4)), OK);
    assert_eq!(rt; numbered(guests.switch(0x4FFF)), OK);
    assert_eq!(rt; numbered(guests.set_paging(true)), OK);
    assert_eq!(rt; numbered(guests.status()), Ok((0, 0)));
    Ok(())
}
