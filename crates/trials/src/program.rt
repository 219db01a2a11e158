// Whole scripts, and what the program prints for them.
use super::records::record;
use runner::report;
use std::alloc::Global;
use std::process::Abort;
use std::test::*;

// Records that set up a machine of ten pages with guest 1: a window, a pool and pages.
const WINDOW: [u8; 12] = [10, 0, 1, 0, 0, 0, 0, 0, 12, 0, 0, 0];

const POOL: [u8; 13] = [11, 0, 4, 0, 1, 8, 0, 0, 0, 2, 0, 0, 0];

const TEN_PAGES: [u8; 12] = [10, 0, 2, 0, 0, 0, 0, 0, 10, 0, 0, 0];

const NINE_PAGES: [u8; 12] = [10, 0, 2, 0, 0, 0, 0, 0, 9, 0, 0, 0];

const START: [u8; 4] = [2, 0, 6, 0];

const SCHEDULE: [u8; 5] = [3, 0, 16, 0, 1];

const STATUS: [u8; 4] = [2, 0, 25, 0];

const FLUSH: [u8; 4] = [2, 0, 20, 0];

const CUT: [u8; 3] = [2, 0, 25];

// Whether a script of some records makes a listing.
fn prints(rt: &impl Abort, heap: Global, records: &[&[u8]], expected: &str) -> Result<(), Fail> {
    let mut script = Vec::new(heap);
    for bytes in records {
        script.extend_from_slice(*bytes)?;
    }
    let text = report(heap, script.as_slice())?;
    assert!(rt; text.as_str() == expected);
    Ok(())
}

#[test]
fn an_empty_script_is_a_header(rt: HostRuntime) -> Result<(), Fail> {
    let text = report(rt.alloc(), b"")?;
    assert!(rt; text.as_str() == "shift\n");
    Ok(())
}

#[test]
fn a_machine_starts_and_answers(rt: HostRuntime) -> Result<(), Fail> {
    let script: [&[u8]; 6] = [&WINDOW, &POOL, &TEN_PAGES, &START, &SCHEDULE, &STATUS];
    prints(
        &rt,
        rt.alloc(),
        &script,
        "shift\n1 1 ok\n2 4 ok\n3 2 ok\n4 6 ok\n5 16 ok\n6 25 pair 00000000 00000000\n",
    )
}

#[test]
fn start_wants_a_window(rt: HostRuntime) -> Result<(), Fail> {
    let script: [&[u8]; 3] = [&TEN_PAGES, &START, &STATUS];
    prints(&rt, rt.alloc(), &script, "shift\n1 2 ok\n2 6 refused 27\n")
}

#[test]
fn start_wants_two_present_pages(rt: HostRuntime) -> Result<(), Fail> {
    let script: [&[u8]; 5] = [&WINDOW, &POOL, &NINE_PAGES, &START, &STATUS];
    prints(
        &rt,
        rt.alloc(),
        &script,
        "shift\n1 1 ok\n2 4 ok\n3 2 ok\n4 6 refused 23\n",
    )
}

#[test]
fn a_phase_is_kept(rt: HostRuntime) -> Result<(), Fail> {
    let script: [&[u8]; 6] = [&STATUS, &WINDOW, &START, &WINDOW, &START, &STATUS];
    prints(
        &rt,
        rt.alloc(),
        &script,
        "shift\n1 25 refused 37\n2 1 ok\n3 6 ok\n4 1 refused 37\n5 6 refused 37\n6 25 refused 29\n",
    )
}

#[test]
fn the_program_stops_at_a_cut(rt: HostRuntime) -> Result<(), Fail> {
    let script: [&[u8]; 2] = [&WINDOW, &CUT];
    prints(&rt, rt.alloc(), &script, "shift\n1 1 ok\n2 0 refused 34\n")
}

#[test]
fn the_program_stops_at_an_unknown_kind(rt: HostRuntime) -> Result<(), Fail> {
    let script: [&[u8]; 3] = [&WINDOW, &[2, 0, 7, 0], &START];
    prints(&rt, rt.alloc(), &script, "shift\n1 1 ok\n2 7 refused 35\n")
}

#[test]
fn the_program_stops_at_a_wrong_length(rt: HostRuntime) -> Result<(), Fail> {
    let script: [&[u8]; 3] = [&WINDOW, &[3, 0, 6, 0, 0], &START];
    prints(&rt, rt.alloc(), &script, "shift\n1 1 ok\n2 6 refused 36\n")
}

// The calls that touch tables are unknown as yet, before start and after it, whatever their bodies.
#[test]
fn calls_that_touch_tables_are_unknown(rt: HostRuntime) -> Result<(), Fail> {
    let heap = rt.alloc();
    prints(&rt, heap, &[&FLUSH, &START], "shift\n1 20 refused 35\n")?;
    prints(
        &rt,
        heap,
        &[&WINDOW, &START, &FLUSH, &STATUS],
        "shift\n1 1 ok\n2 6 ok\n3 20 refused 35\n",
    )?;
    prints(
        &rt,
        heap,
        &[&[3, 0, 24, 0, 0], &START],
        "shift\n1 24 refused 35\n",
    )
}

// 1,365 records of 12 bytes and four bytes of the next: what stands past byte 16,384 does not count.
#[test]
fn the_limit_cuts_a_record(rt: HostRuntime) -> Result<(), Fail> {
    let heap = rt.alloc();
    let mut script = Vec::new(heap);
    for _ in 0..1366 {
        script.extend_from_slice(&WINDOW)?;
    }
    let text = report(heap, script.as_slice())?;
    assert!(rt; text.as_str().ends_with("\n1365 1 ok\n1366 0 refused 34\n"));
    Ok(())
}

// 4,096 records of four bytes are read to the last, and the next is not seen.
#[test]
fn the_limit_lets_whole_records_pass(rt: HostRuntime) -> Result<(), Fail> {
    let heap = rt.alloc();
    let mut script = Vec::new(heap);
    for _ in 0..4097 {
        script.extend_from_slice(&STATUS)?;
    }
    let text = report(heap, script.as_slice())?;
    assert!(rt; text.as_str().ends_with("\n4096 25 refused 37\n"));
    Ok(())
}

// A record whose length says more than the input has is cut.
#[test]
fn a_long_record_is_cut(rt: HostRuntime) -> Result<(), Fail> {
    let heap = rt.alloc();
    let long = record(heap, 1, 40_000)?;
    prints(&rt, heap, &[long.as_slice()], "shift\n1 0 refused 34\n")
}
