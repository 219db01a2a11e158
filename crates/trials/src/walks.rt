// Walks of a guest, by every kind of word and every abort.
use machine::{End, Machine};
use platform::units::{Address, Guest, Page, Place, Word};
use std::test::*;

mod machine;

// Physical page 0 is this guest page, and guest 1's first-level table is on it.
const FIRST: Page = 256;

// With the base there, the word of the addresses 0x0050_0000 to 0x005F_FFFF stands at this place of physical page 0.
const ROOT_PLACE: Place = 5;

// A first-level word that names the table on physical page 1 from this place on.
const TABLE: Word = 0x0010_1C01;

const TABLE_PLACE: Place = 768;

// A section's word, with every access permission, and how a read and a write of its page 2 end.
const SECTIONS: [(Word, End, End); 8] = [
    (0x0010_0002, Err(0x0D), Err(0x0D)),
    (0x0010_0402, Ok((2, 2)), Ok((2, 2))),
    (0x0010_0802, Ok((2, 2)), Ok((2, 2))),
    (0x0010_0C02, Ok((2, 2)), Ok((2, 2))),
    (0x0010_8002, Err(0x0D), Err(0x0D)),
    (0x0010_8402, Ok((2, 1)), Err(0x0D)),
    (0x0010_8802, Ok((2, 1)), Err(0x0D)),
    (0x0010_8C02, Ok((2, 1)), Err(0x0D)),
];

#[test]
fn sections_by_permission(rt: HostRuntime) -> Result<(), Fail> {
    let mut machine = Machine::new(rt.alloc(), FIRST)?;
    for (word, read, write) in SECTIONS {
        machine.put(&rt, 0, ROOT_PLACE, word)?;
        machine.ends(&rt, Some(FIRST), 0x0050_2ABC, read, write)?;
    }
    Ok(())
}

// A second-level word and how a read and a write end: a small page of each type and a large page, with every
// access permission.
const PAGES: [(Word, End, End); 24] = [
    (0x0010_2002, Err(0x0F), Err(0x0F)),
    (0x0010_2012, Ok((2, 2)), Ok((2, 2))),
    (0x0010_2022, Ok((2, 2)), Ok((2, 2))),
    (0x0010_2032, Ok((2, 2)), Ok((2, 2))),
    (0x0010_2202, Err(0x0F), Err(0x0F)),
    (0x0010_2212, Ok((2, 1)), Err(0x0F)),
    (0x0010_2222, Ok((2, 1)), Err(0x0F)),
    (0x0010_2232, Ok((2, 1)), Err(0x0F)),
    (0x0011_D003, Err(0x0F), Err(0x0F)),
    (0x0011_D013, Ok((29, 2)), Ok((29, 2))),
    (0x0011_D023, Ok((29, 2)), Ok((29, 2))),
    (0x0011_D033, Ok((29, 2)), Ok((29, 2))),
    (0x0011_D203, Err(0x0F), Err(0x0F)),
    (0x0011_D213, Ok((29, 1)), Err(0x0F)),
    (0x0011_D223, Ok((29, 1)), Err(0x0F)),
    (0x0011_D233, Ok((29, 1)), Err(0x0F)),
    (0x0011_0001, Err(0x0F), Err(0x0F)),
    (0x0011_0011, Ok((19, 2)), Ok((19, 2))),
    (0x0011_0021, Ok((19, 2)), Ok((19, 2))),
    (0x0011_0031, Ok((19, 2)), Ok((19, 2))),
    (0x0011_0201, Err(0x0F), Err(0x0F)),
    (0x0011_0211, Ok((19, 1)), Err(0x0F)),
    (0x0011_0221, Ok((19, 1)), Err(0x0F)),
    (0x0011_0231, Ok((19, 1)), Err(0x0F)),
];

#[test]
fn pages_by_permission(rt: HostRuntime) -> Result<(), Fail> {
    let mut machine = Machine::new(rt.alloc(), FIRST)?;
    machine.put(&rt, 0, ROOT_PLACE, TABLE)?;
    for (word, read, write) in PAGES {
        machine.put(&rt, 1, TABLE_PLACE + 3, word)?;
        machine.ends(&rt, Some(FIRST), 0x0050_3ABC, read, write)?;
    }
    Ok(())
}

// Its sixteen places are the physical pages 16 to 31. The word stands in the table once for each of them.
#[test]
fn a_large_page_at_each_place(rt: HostRuntime) -> Result<(), Fail> {
    let mut machine = Machine::new(rt.alloc(), FIRST)?;
    machine.put(&rt, 0, ROOT_PLACE, TABLE)?;
    for place in 0..16u32 {
        machine.put(&rt, 1, TABLE_PLACE + place, 0x0011_0031)?;
    }
    for place in 0..16u32 {
        let end = Ok((16 + place, 2));
        machine.ends(&rt, Some(FIRST), 0x0050_0000 + place * 0x1000, end, end)?;
    }
    machine.ends(&rt, Some(FIRST), 0x0051_0000, Err(0x07), Err(0x07))
}

// A word of each level, and the fault that reads and writes take: an entry that is invalid or a supersection; a table
// below the window, past it, on a page that the guest may not read, in its pool, on a page that the memory lacks.
const FAULTS: [(Word, Word, u8); 12] = [
    (0x0000_0000, 0x0010_2032, 0x05),
    (0x0010_1C00, 0x0010_2032, 0x05),
    (0x0010_0C03, 0x0010_2032, 0x05),
    (0x0014_0C02, 0x0010_2032, 0x05),
    (0x0010_1C01, 0x0000_0000, 0x07),
    (0x0010_1C01, 0x0010_2030, 0x07),
    (0x0010_1801, 0x0010_2032, 0x07),
    (0x000F_FC01, 0x0010_2032, 0x0E),
    (0x0012_2C01, 0x0010_2032, 0x0E),
    (0x0010_4C01, 0x0010_2032, 0x0E),
    (0x0010_5C01, 0x0010_2032, 0x0E),
    (0x0012_0C01, 0x0010_2032, 0x0E),
];

// The guest page of a first-level table that cannot be read, for the same causes and for a page past all.
const BASES: [Page; 7] = [0, 255, 290, 260, 261, 288, 0xFFFF_FFFF];

#[test]
fn words_that_abort_and_tables_that_cannot_be_read(rt: HostRuntime) -> Result<(), Fail> {
    let mut machine = Machine::new(rt.alloc(), FIRST)?;
    for (first, second, code) in FAULTS {
        machine.put(&rt, 0, ROOT_PLACE, first)?;
        machine.put(&rt, 1, TABLE_PLACE + 2, second)?;
        machine.ends(&rt, Some(FIRST), 0x0050_2000, Err(code), Err(code))?;
    }
    for base in BASES {
        machine.ends(&rt, Some(base), 0x0050_2000, Err(0x0C), Err(0x0C))?;
    }
    Ok(())
}

// The section's word, an address, and how a read and a write end: pages that the guest may write, may read, may not
// touch and has in its pool, the last that the memory has, the first that it lacks, the first past the window.
const LANDINGS: [(Word, Address, End, End); 14] = [
    (0x0010_0C02, 0x0050_2000, Ok((2, 2)), Ok((2, 2))),
    (0x0010_0C02, 0x0050_3000, Err(0x08), Err(0x08)),
    (0x0010_0C02, 0x0050_4000, Err(0x08), Err(0x08)),
    (0x0010_0C02, 0x0050_5000, Err(0x08), Err(0x08)),
    (0x0010_0C02, 0x0051_FFFC, Ok((31, 2)), Ok((31, 2))),
    (0x0010_0C02, 0x0052_0000, Err(0x08), Err(0x08)),
    (0x0010_0C02, 0x0052_2000, Err(0x08), Err(0x08)),
    (0x0010_8C02, 0x0050_2000, Ok((2, 1)), Err(0x0D)),
    (0x0010_8C02, 0x0050_3000, Ok((3, 1)), Err(0x0D)),
    (0x0010_8C02, 0x0050_4000, Err(0x08), Err(0x0D)),
    (0x0010_8C02, 0x0050_5000, Err(0x08), Err(0x0D)),
    (0x0010_8C02, 0x0052_0000, Err(0x08), Err(0x0D)),
    (0x0010_8C02, 0x0052_2000, Err(0x08), Err(0x0D)),
    (0x0000_0C02, 0x0050_2000, Err(0x08), Err(0x08)),
];

#[test]
fn the_book_the_memory_and_the_window_have_the_last_word(rt: HostRuntime) -> Result<(), Fail> {
    let mut machine = Machine::new(rt.alloc(), FIRST)?;
    for (word, va, read, write) in LANDINGS {
        machine.put(&rt, 0, ROOT_PLACE, word)?;
        machine.ends(&rt, Some(FIRST), va, read, write)?;
    }
    Ok(())
}

// With paging off: the first guest page of the window, an address, and how a read and a write end. The same pages
// as above, and a page below the window; then other windows, the last of which reaches over the address limit.
const UNPAGED: [(Page, Address, End, End); 12] = [
    (256, 0x0010_2000, Ok((2, 2)), Ok((2, 2))),
    (256, 0x0010_2FFF, Ok((2, 2)), Ok((2, 2))),
    (256, 0x0010_3000, Ok((3, 1)), Err(0x08)),
    (256, 0x0010_4000, Err(0x08), Err(0x08)),
    (256, 0x0010_5000, Err(0x08), Err(0x08)),
    (256, 0x000F_FFFF, Err(0x08), Err(0x08)),
    (256, 0x0012_0000, Err(0x08), Err(0x08)),
    (256, 0x0012_2000, Err(0x08), Err(0x08)),
    (0, 0x0000_2000, Ok((2, 2)), Ok((2, 2))),
    (1, 0x0000_2000, Ok((1, 1)), Err(0x08)),
    (0x3_FFFF, 0x3FFF_FFFF, Ok((0, 2)), Ok((0, 2))),
    (0x3_FFFF, 0x4000_0000, Err(0x08), Err(0x08)),
];

#[test]
fn with_paging_off_the_book_gives_the_right(rt: HostRuntime) -> Result<(), Fail> {
    for (first, va, read, write) in UNPAGED {
        let machine = Machine::new(rt.alloc(), first)?;
        machine.ends(&rt, None, va, read, write)?;
    }
    Ok(())
}

// Behind a window from guest page 0x3FFFF on: the section of the last addresses is that of page 0x3FFFF.
#[test]
fn no_guest_has_an_address_past_the_limit(rt: HostRuntime) -> Result<(), Fail> {
    let mut machine = Machine::new(rt.alloc(), 0x3_FFFF)?;
    let base = Some(0x3_FFFF);
    machine.put(&rt, 0, 1023, 0x3FF0_0C02)?;
    machine.ends(&rt, base, 0x3FFF_FFFF, Ok((0, 2)), Ok((0, 2)))?;
    machine.ends(&rt, base, 0x4000_0000, Err(0x05), Err(0x05))?;
    machine.ends(&rt, base, 0xFFFF_FFFF, Err(0x05), Err(0x05))
}

// A guest, and how its read of page 3 ends with paging off, and by a section that asks for reading.
const GUESTS: [(Guest, End, End); 6] = [
    (1, Ok((3, 1)), Ok((3, 1))),
    (2, Ok((3, 2)), Err(0x0C)),
    (3, Err(0x08), Err(0x0C)),
    (0, Err(0x08), Err(0x0C)),
    (9, Err(0x08), Err(0x0C)),
    (255, Err(0x08), Err(0x0C)),
];

#[test]
fn each_guest_has_its_own_rights(rt: HostRuntime) -> Result<(), Fail> {
    let mut machine = Machine::new(rt.alloc(), FIRST)?;
    machine.put(&rt, 0, ROOT_PLACE, 0x0010_8C02)?;
    for (guest, off, on) in GUESTS {
        machine.reads(&rt, guest, None, 0x0010_3000, off)?;
        machine.reads(&rt, guest, Some(FIRST), 0x0050_3000, on)?;
    }
    Ok(())
}
