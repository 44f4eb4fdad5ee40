//! Streams over reads and writes, at bytes in memory.

use mc_sockets::{Duplex, IoStream, Received, Sent, Stream};
use std::io::{self, IoSlice, Read, Write};
use std::test::Fail;

/// Reads from one end, and writes to another.
#[derive(Drop)]
struct Ends<R, W> {
    reader: R,
    writer: W,
}

impl<R: Read, W> Read for Ends<R, W> {
    ghost remaining = { λ ends. R.remaining ends.reader };

    fn read(&mut self, buf: &mut [u8]) -> io::Result<usize> {
        self.reader.read(buf)
    }
}

impl<R, W: Write> Write for Ends<R, W> {
    ghost contents = { λ ends. W.contents ends.writer };

    fn write(&mut self, buf: &[u8]) -> io::Result<usize> {
        self.writer.write(buf)
    }

    fn flush(&mut self) -> io::Result<()> {
        self.writer.flush()
    }
}

impl<R: Read, W: Write> Duplex for Ends<R, W> {
    fn write_parts(&mut self, parts: &[IoSlice<'_>]) -> io::Result<usize> {
        self.writer.write_vectored(parts)
    }
}

#[test]
fn a_stream_gives_what_is_read(rt: HostRuntime) -> Result<(), Fail> {
    let reader: &[u8] = b"get a\r\n";
    let mut stream = IoStream::new(Ends {
        reader,
        writer: Vec::new(rt.alloc()),
    });
    let mut piece = [0u8; 4];
    assert!(rt; matches!(stream.receive(&mut piece), Received::Bytes(4)));
    assert!(rt; piece.as_slice() == b"get ".as_slice());
    assert!(rt; matches!(stream.receive(&mut piece), Received::Bytes(3)));
    assert!(rt; piece.as_slice() == b"a\r\n ".as_slice());
    assert!(rt; matches!(stream.receive(&mut piece), Received::End));
    Ok(())
}

#[test]
fn a_stream_takes_two_texts_in_one_call(rt: HostRuntime) -> Result<(), Fail> {
    let reader: &[u8] = b"";
    let mut stream = IoStream::new(Ends {
        reader,
        writer: Vec::new(rt.alloc()),
    });
    assert!(rt;
        matches!(
            stream.send(b"VALUE a 0 1\r\n", b"x", b"\r\n"),
            Sent::Bytes(16)
        )
    );
    assert!(rt; matches!(stream.send(b"", b"END\r\n", b""), Sent::Bytes(5)));
    assert!(rt; matches!(stream.send(b"STORED\r\n", b"", b""), Sent::Bytes(8)));
    let taken = stream.get().writer.as_slice();
    assert!(rt; taken == b"VALUE a 0 1\r\nx\r\nEND\r\nSTORED\r\n".as_slice());
    Ok(())
}
