// Texts that people write.
use super::{HexError, decode, lines_before};
use std::test::Fail;

#[test]
fn digits_in_pairs_are_bytes(rt: HostRuntime) -> Result<(), Fail> {
    let mut bytes = Vec::new(rt.alloc());
    decode(b"01 00ff,aB\tCd\r\n# 7g\n09", &mut bytes)?;
    assert!(rt; bytes.as_slice() == b"\x01\x00\xff\xab\xcd\x09".as_slice());
    Ok(())
}

#[test]
fn a_wrong_text_adds_nothing(rt: HostRuntime) {
    let mut bytes = Vec::new(rt.alloc());
    assert_eq!(rt;
        decode(b"01 0g", &mut bytes),
        Err(HexError::HalfByte { place: 3 })
    );
    assert_eq!(rt;
        decode(b"01 0", &mut bytes),
        Err(HexError::HalfByte { place: 3 })
    );
    assert_eq!(rt;
        decode(b"01 0 2", &mut bytes),
        Err(HexError::HalfByte { place: 3 })
    );
    assert_eq!(rt;
        decode(b"01\ng", &mut bytes),
        Err(HexError::NotHex { place: 3 })
    );
    assert!(rt; bytes.is_empty());
}

#[test]
fn lines_are_counted_by_their_ends(rt: HostRuntime) {
    assert_eq!(rt; lines_before(b"01\n\n02", 4), 2);
    assert_eq!(rt; lines_before(b"01\n\n02", 3), 1);
    assert_eq!(rt; lines_before(b"01\n\n02", 9), 2);
}
