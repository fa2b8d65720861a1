use crate::{ReadError, Records, read_bytes, read_record, read_up_to};
use std::test::Fail;

// Two records, of three bytes and of none, and then the input ends.
#[test]
fn records_are_read(rt: HostRuntime) -> Result<(), Fail> {
    let mut input = &b"00003\nabc\n00000\n\n"[..];
    let mut buffer = [0u8; 3];
    assert_eq!(rt; read_record(&mut input, &mut buffer)?, Some(3));
    assert_eq!(rt; &buffer, b"abc");
    assert_eq!(rt; read_record(&mut input, &mut buffer)?, Some(0));
    assert_eq!(rt; read_record(&mut input, &mut buffer)?, None);
    Ok(())
}

// A record that has more bytes than are allowed, and one without its end.
#[test]
fn records_are_cut_short(rt: HostRuntime) {
    for mut input in [
        &b"00004\nabcd\n"[..],
        b"00003\nabcd",
        b"00003\nab",
        b"0003\nabc\n",
    ] {
        assert!(rt;
            matches!(
                read_record(&mut input, &mut [0u8; 3]),
                Err(ReadError::CutShort)
            )
        );
    }
}

// The same records, each given in memory of its own.
#[test]
fn records_are_given(rt: HostRuntime) -> Result<(), Fail> {
    let mut records = Records::new(rt.alloc(), &b"00003\nabc\n00000\n\n"[..], 3);
    let first = records.next().transpose()?;
    assert!(rt; first.is_some_and(|bytes| bytes.as_slice() == b"abc".as_slice()));
    let second = records.next().transpose()?;
    assert!(rt; second.is_some_and(|bytes| bytes.is_empty()));
    assert!(rt; records.next().is_none());
    Ok(())
}

#[test]
fn records_given_are_cut_short(rt: HostRuntime) {
    for input in [
        &b"00004\nabcd\n"[..],
        b"00003\nabcd",
        b"00003\nab",
        b"0003\nabc\n",
    ] {
        let mut records = Records::new(rt.alloc(), input, 3);
        assert!(rt; matches!(records.next(), Some(Err(ReadError::CutShort))));
    }
}

#[test]
fn bytes_are_read(rt: HostRuntime) -> Result<(), Fail> {
    let mut input = &b"abcde"[..];
    let mut short = [0u8; 2];
    let mut long = [0u8; 9];
    assert_eq!(rt; read_up_to(&mut input, &mut short, 2)?, 2);
    assert_eq!(rt; &short, b"ab");
    read_bytes(&mut input, &mut long, 2)?;
    assert_eq!(rt; &long[..2], b"cd".as_slice());
    assert_eq!(rt; read_up_to(&mut input, &mut long, 2)?, 1);
    assert_eq!(rt; &long[..1], b"e".as_slice());
    Ok(())
}
