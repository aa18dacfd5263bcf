// The reads, of bytes that are at hand and of a reader that fails. That a read fails where the file does, and for its
// reason, no contract can say.
use crate::{RecordError, read_full, read_head, read_whole};
use std::io::{self, ErrorKind, Read};

// Gives its bytes, and then fails.
#[derive(Drop)]
struct Failing<'a> {
    left: &'a [u8],
}

impl Read for Failing<'_> {
    fn read(&mut self, buf: &mut [u8]) -> io::Result<usize> {
        if self.left.is_empty() {
            return Err(io::Error::from(ErrorKind::TimedOut));
        }
        self.left.read(buf)
    }
}

#[test]
fn a_read_is_as_long_as_the_buffer_or_the_file(rt: HostRuntime) {
    let mut file: &[u8] = b"abcde";
    let mut buffer = [7u8; 4];
    assert_eq!(rt; read_full(&mut file, &mut buffer).ok(), Some(4));
    assert_eq!(rt; buffer, *b"abcd");
    assert_eq!(rt; read_full(&mut file, &mut buffer).ok(), Some(1));
    assert_eq!(rt; buffer, *b"ebcd");
    assert_eq!(rt; read_full(&mut file, &mut buffer).ok(), Some(0));
    assert_eq!(rt; buffer, *b"ebcd");
}

#[test]
fn a_long_buffer_takes_several_reads(rt: HostRuntime) {
    let mut bytes = [0u8; 10000];
    for (k, byte) in bytes.iter_mut().enumerate() {
        *byte = (k % 251) as u8;
    }
    let mut file = &bytes[..];
    let mut buffer = [0u8; 9000];
    assert_eq!(rt; read_full(&mut file, &mut buffer).ok(), Some(9000));
    assert!(rt; buffer[..] == bytes[..9000]);
    assert_eq!(rt; file.len(), 1000);
}

#[test]
fn a_buffer_that_is_not_full_is_broken(rt: HostRuntime) {
    let mut file: &[u8] = b"abcde";
    let mut buffer = [7u8; 3];
    assert!(rt; read_whole(&mut file, &mut buffer).is_ok());
    assert_eq!(rt; buffer, *b"abc");
    assert!(rt; matches!(read_whole(&mut file, &mut buffer), Err(RecordError::Broken)));
    assert_eq!(rt; buffer, *b"dec");
}

#[test]
fn a_head_is_twelve_bytes(rt: HostRuntime) {
    let mut file: &[u8] = b"\0\0\x01\x02\0\0\0\x05\0\0\0\x06\0\0";
    let head = read_head(&mut file).ok().flatten();
    assert_eq!(rt;
        head.map(|h| (h.bytes, h.phase, h.places)),
        Some((258, 5, 6))
    );
    assert!(rt; matches!(read_head(&mut file), Err(RecordError::Broken)));
    assert!(rt; matches!(read_head(&mut file), Ok(None)));
}

#[test]
fn what_fails_is_passed_on(rt: HostRuntime) {
    let mut buffer = [7u8; 4];
    let mut file = Failing { left: b"abc" };
    let kind = read_full(&mut file, &mut buffer).err().map(|e| e.kind());
    assert_eq!(rt; kind, Some(ErrorKind::TimedOut));
    assert_eq!(rt; buffer, *b"abc\x07");
    file = Failing { left: b"x" };
    let whole = read_whole(&mut file, &mut buffer);
    assert!(rt; matches!(whole, Err(RecordError::Io(e)) if e.kind() == ErrorKind::TimedOut));
    file = Failing { left: b"x" };
    let head = read_head(&mut file);
    assert!(rt; matches!(head, Err(RecordError::Io(e)) if e.kind() == ErrorKind::TimedOut));
}
