// Records of every kind, whole and cut, and their fields.
use super::numbers::numbered;
use platform::access::Access;
use platform::refusal::Refusal;
use platform::span::Span;
use script::{Command, Record, ScriptReader, read_script};
use std::alloc::{AllocError, Global};
use std::test::*;

// Every kind, and the length of its body.
const KINDS: [(u16, u16); 16] = [
    (1, 8),
    (2, 8),
    (3, 10),
    (4, 9),
    (5, 10),
    (6, 0),
    (16, 1),
    (17, 4),
    (18, 0),
    (19, 0),
    (20, 0),
    (21, 4),
    (22, 5),
    (23, 4),
    (24, 8),
    (25, 0),
];

// A record of a kind, with a body of so many bytes.
pub fn record(heap: Global, kind: u16, length: u16) -> Result<Vec<u8>, AllocError> {
    let mut bytes = Vec::new(heap);
    bytes.extend_from_slice(&length.wrapping_add(2).to_le_bytes())?;
    bytes.extend_from_slice(&kind.to_le_bytes())?;
    for _ in 0..length {
        bytes.push(1)?;
    }
    Ok(bytes)
}

// The number of the refusal of the first record, if it is refused.
fn first_refusal(input: &[u8]) -> Option<u8> {
    match ScriptReader::new(input).next() {
        Ok(Some(record)) => numbered(record.command()).err(),
        Ok(None) => None,
        Err(refusal) => Some(u8::from(refusal)),
    }
}

#[test]
fn every_kind_whole_and_cut(rt: HostRuntime) -> Result<(), Fail> {
    for (kind, length) in KINDS {
        let bytes = record(rt.alloc(), kind, length)?;
        assert_eq!(rt; first_refusal(bytes.as_slice()), None);
        for n in 1..bytes.len() {
            assert_eq!(rt; first_refusal(&bytes.as_slice()[0..n]), Some(34));
        }
        let script = read_script(rt.alloc(), bytes.as_slice())?;
        assert!(rt; script.commands.len() == 1);
        assert_eq!(rt; u16::from(script.commands[0].kind()), kind);
        assert_eq!(rt; script.end, Ok(()));
    }
    Ok(())
}

#[test]
fn every_other_length_is_refused(rt: HostRuntime) -> Result<(), Fail> {
    for (kind, length) in KINDS {
        for other in 0..12u16 {
            let expected = (other != length).then_some(36);
            let bytes = record(rt.alloc(), kind, other)?;
            assert_eq!(rt; first_refusal(bytes.as_slice()), expected);
        }
    }
    Ok(())
}

#[test]
fn every_other_kind_is_unknown(rt: HostRuntime) -> Result<(), Fail> {
    for kind in [0u16, 7, 15, 26, 255, 256, 257, 65_535] {
        for length in 0..12u16 {
            let bytes = record(rt.alloc(), kind, length)?;
            assert_eq!(rt; first_refusal(bytes.as_slice()), Some(35));
        }
    }
    Ok(())
}

#[test]
fn a_length_below_two_is_a_cut(rt: HostRuntime) -> Result<(), Fail> {
    assert_eq!(rt; first_refusal(&[0, 0, 20, 0]), Some(34));
    assert_eq!(rt; first_refusal(&[1, 0, 20, 0, 0]), Some(34));
    assert_eq!(rt; first_refusal(&[2, 0, 20, 0]), None);
    assert_eq!(rt; first_refusal(&[2, 1, 20, 0]), Some(34));
    Ok(())
}

// The command of a kind and a body.
fn command(kind: u16, body: &[u8]) -> Result<Command, Refusal> {
    Record { kind, body }.command()
}

#[test]
fn fields_stand_in_order(rt: HostRuntime) -> Result<(), Fail> {
    let bytes = [1u8, 2, 3, 4, 5, 6, 7, 8, 9, 10];
    assert_eq!(rt;
        command(1, &bytes[0..8]),
        Ok(Command::Window(Span {
            first: 0x04030201,
            count: 0x08070605
        }))
    );
    assert_eq!(rt;
        command(2, &bytes[0..8]),
        Ok(Command::Present(Span {
            first: 0x04030201,
            count: 0x08070605
        }))
    );
    assert_eq!(rt;
        command(3, &bytes),
        Ok(Command::Word {
            page: 0x04030201,
            place: 0x0605,
            word: 0x0A090807
        })
    );
    assert_eq!(rt;
        command(4, &bytes[0..9]),
        Ok(Command::Pool {
            guest: 1,
            span: Span {
                first: 0x05040302,
                count: 0x09080706
            }
        })
    );
    assert_eq!(rt;
        command(5, &bytes),
        Ok(Command::Grant {
            guest: 1,
            span: Span {
                first: 0x05040302,
                count: 0x09080706
            },
            right: 10
        })
    );
    assert_eq!(rt; command(16, &bytes[0..1]), Ok(Command::Schedule(1)));
    assert_eq!(rt; command(17, &bytes[0..4]), Ok(Command::Switch(0x04030201)));
    assert_eq!(rt;
        command(21, &bytes[0..4]),
        Ok(Command::FlushPage(0x04030201))
    );
    assert_eq!(rt; command(23, &bytes[0..4]), Ok(Command::Load(0x04030201)));
    assert_eq!(rt;
        command(24, &bytes[0..8]),
        Ok(Command::Store {
            address: 0x04030201,
            word: 0x08070605
        })
    );
    Ok(())
}

#[test]
fn access_zero_reads(rt: HostRuntime) -> Result<(), Fail> {
    assert_eq!(rt;
        command(22, &[1, 2, 3, 4, 0]),
        Ok(Command::Fault {
            address: 0x04030201,
            access: Access::Read
        })
    );
    assert_eq!(rt;
        command(22, &[1, 2, 3, 4, 1]),
        Ok(Command::Fault {
            address: 0x04030201,
            access: Access::Write
        })
    );
    assert_eq!(rt;
        command(22, &[1, 2, 3, 4, 255]),
        Ok(Command::Fault {
            address: 0x04030201,
            access: Access::Write
        })
    );
    Ok(())
}
