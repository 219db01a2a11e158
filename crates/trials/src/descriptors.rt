// Addresses, table words and the words of shadow tables.
use descriptor::address::{first_index, page_place, second_index};
use descriptor::entry::{FirstLevel, SecondLevel, first_level, second_level};
use descriptor::shadow::{leaf_word, root_word};
use platform::right::Right;
use platform::units::{Address, Page, Word};
use std::test::*;

// Address, first index, second index, place in the page.
const ADDRESSES: [(Address, u32, u32, u32); 10] = [
    (0x0000_0000, 0, 0, 0),
    (0x0000_0003, 0, 0, 0),
    (0x0000_0004, 0, 0, 1),
    (0x0000_0FFF, 0, 0, 1023),
    (0x0000_1000, 0, 1, 0),
    (0x000F_FFFF, 0, 255, 1023),
    (0x0010_0000, 1, 0, 0),
    (0x3FFF_FFFF, 1023, 255, 1023),
    (0x4000_0000, 1024, 0, 0),
    (0xFFFF_FFFF, 4095, 255, 1023),
];

#[test]
fn addresses_are_cut_at_their_edges(rt: HostRuntime) -> Result<(), Fail> {
    for (va, first, second, place) in ADDRESSES {
        assert_eq!(rt; first_index(va), first);
        assert_eq!(rt; second_index(va), second);
        assert_eq!(rt; page_place(va), place);
    }
    Ok(())
}

// Word, address, and what a first-level table says by it. Bits that the format leaves to domains, memory types
// and execute-never do not count.
const FIRST_LEVEL: [(Word, Address, FirstLevel); 10] = [
    (0x0000_0000, 0x0050_2000, FirstLevel::Invalid),
    (0xFFFF_FFFC, 0x0050_2000, FirstLevel::Invalid),
    (0x0010_0C03, 0x0050_2000, FirstLevel::Invalid),
    (
        0x0010_0C02,
        0x0050_2000,
        FirstLevel::Section {
            page: 0x102,
            right: Right::Write,
        },
    ),
    (
        0xFFF0_8C02,
        0x3FFF_FFFF,
        FirstLevel::Section {
            page: 0xFFFFF,
            right: Right::Read,
        },
    ),
    (
        0xFFFB_FFFE,
        0xFFFF_FFFF,
        FirstLevel::Section {
            page: 0xFFFFF,
            right: Right::Read,
        },
    ),
    (0x0014_0C02, 0x0050_2000, FirstLevel::Supersection),
    (
        0x0010_1C01,
        0x0050_2000,
        FirstLevel::Table {
            page: 0x101,
            place: 770,
        },
    ),
    (
        0x0010_13FD,
        0x0050_2000,
        FirstLevel::Table {
            page: 0x101,
            place: 2,
        },
    ),
    (
        0xFFFF_FFFD,
        0xFFFF_FFFF,
        FirstLevel::Table {
            page: 0xFFFFF,
            place: 1023,
        },
    ),
];

// Word, address, and what a second-level table says by it.
const SECOND_LEVEL: [(Word, Address, SecondLevel); 10] = [
    (0x0000_0000, 0x0050_3000, SecondLevel::Invalid),
    (0xFFFF_FFFC, 0x0050_3000, SecondLevel::Invalid),
    (
        0x0011_0031,
        0x0050_3000,
        SecondLevel::LargePage {
            page: 0x113,
            right: Right::Write,
        },
    ),
    (
        0x0011_F031,
        0x0050_3000,
        SecondLevel::LargePage {
            page: 0x113,
            right: Right::Write,
        },
    ),
    (
        0xFFFF_0201,
        0xFFFF_FFFF,
        SecondLevel::LargePage {
            page: 0xFFFFF,
            right: Right::Nothing,
        },
    ),
    (
        0x0010_4232,
        0x0050_3000,
        SecondLevel::SmallPage {
            page: 0x104,
            right: Right::Read,
        },
    ),
    (
        0x0010_4233,
        0x0050_3000,
        SecondLevel::SmallPage {
            page: 0x104,
            right: Right::Read,
        },
    ),
    (
        0x0010_4DCE,
        0x0050_3000,
        SecondLevel::SmallPage {
            page: 0x104,
            right: Right::Nothing,
        },
    ),
    (
        0x0010_4012,
        0xFFFF_FFFF,
        SecondLevel::SmallPage {
            page: 0x104,
            right: Right::Write,
        },
    ),
    (
        0xFFFF_FFFF,
        0x0000_0000,
        SecondLevel::SmallPage {
            page: 0xFFFFF,
            right: Right::Read,
        },
    ),
];

#[test]
fn table_words_say_what_their_fields_say(rt: HostRuntime) -> Result<(), Fail> {
    for (word, va, says) in FIRST_LEVEL {
        assert_eq!(rt; first_level(word, va), says);
    }
    for (word, va, says) in SECOND_LEVEL {
        assert_eq!(rt; second_level(word, va), says);
    }
    Ok(())
}

// Page, the word of a root that names it as a leaf, the words of a leaf that map it for writing and for reading.
const SHADOW: [(Page, Word, Word, Word); 4] = [
    (0, 0x0000_0001, 0x0000_003E, 0x0000_023E),
    (2, 0x0000_2001, 0x0000_203E, 0x0000_223E),
    (65_535, 0x0FFF_F001, 0x0FFF_F03E, 0x0FFF_F23E),
    (1_048_575, 0xFFFF_F001, 0xFFFF_F03E, 0xFFFF_F23E),
];

#[test]
fn shadow_words_read_back(rt: HostRuntime) -> Result<(), Fail> {
    for (page, root, writable, readable) in SHADOW {
        assert_eq!(rt; root_word(page), root);
        assert_eq!(rt; leaf_word(page, Right::Write), writable);
        assert_eq!(rt; leaf_word(page, Right::Read), readable);
        for (va, place) in [(0x0000_0000u32, 0u32), (0x0050_2000, 2), (0x3FFF_FFFF, 255)] {
            let leaf = FirstLevel::Table { page, place };
            assert_eq!(rt; first_level(root_word(page), va), leaf);
            for right in [Right::Write, Right::Read] {
                let mapped = SecondLevel::SmallPage { page, right };
                assert_eq!(rt; second_level(leaf_word(page, right), va), mapped);
            }
        }
    }
    Ok(())
}
