//! Readers and writers of a few bytes at a time.

use mc_testing::{Drip, Sip};
use std::io::{ErrorKind, Read, Write};
use std::test::Fail;

#[test]
fn drips(rt: HostRuntime) -> Result<(), Fail> {
    let mut reader = Drip::new(b"abcde", 2);
    let mut buffer = [0; 4];
    for (len, rest) in [(2, "cde"), (2, "e"), (1, ""), (0, "")] {
        assert!(rt; reader.read(&mut buffer)? == len);
        assert!(rt; reader.rest() == rest.as_bytes());
    }
    let mut reader = Drip::failing(b"abcde", 1, ErrorKind::WouldBlock);
    assert!(rt; reader.read(&mut buffer)? == 1);
    let failed = reader.read(&mut buffer);
    assert!(rt; matches!(failed, Err(error) if error.kind() == ErrorKind::WouldBlock));
    Ok(())
}

#[test]
fn sips(rt: HostRuntime) -> Result<(), Fail> {
    let mut writer = Sip::new(rt.alloc(), 2);
    for (bytes, len) in [("abc", 2), ("d", 1), ("", 0)] {
        assert!(rt; writer.write(bytes.as_bytes())? == len);
    }
    assert!(rt; writer.taken_bytes() == b"abd".as_slice());
    let mut writer = Sip::failing(rt.alloc(), 1, 1, ErrorKind::Other)?;
    assert!(rt; writer.write(b"abc")? == 1);
    assert!(rt; writer.write(b"bc").is_err());
    assert!(rt; writer.taken_bytes() == b"a".as_slice());
    Ok(())
}
