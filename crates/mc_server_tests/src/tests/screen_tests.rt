//! First bytes of connections, and links that end where these show another protocol.

use mc_guests::{Got, Link, LinkFault, Took};
use mc_sockets::{Part, Peer, PieceOpening, Protocol, Screen};
use std::test::Fail;

/// A header of the binary protocol, with a key of 1 byte.
const HEADER: &[u8] = b"\x80\x00\x00\x01\x00\x00\x00\x00\x00\x00\x00\x01flush_all\n\n\n";

/// What is sent, and how much of it is handed on.
static ROWS: [(&[u8], usize); 8] = [
    (b"get a HTTP/1.1\r\nget b\r\n", 23),
    (b"POST / HTTP/1.1\r\nflush_all\r\n", 17),
    (b"Set / HTTP/1.\nflush_all\r\n", 14),
    (b"POST / HTTP/2.0\r\nget b\r\n", 24),
    (b"POST  / HTTP/1.1\r\nget b\r\n", 25),
    (b"POST / HTTP/1.1 a\r\nget b\r\n", 26),
    (b"\x80\r\nget b\r\n", 10),
    (b"", 0),
];

/// A link that gives a text in pieces.
#[derive(Drop)]
struct Spoken<'a> {
    text: &'a [u8],
    /// The most bytes that it gives at once.
    piece: usize,
    /// Whether it is noted that its peer speaks another protocol.
    is_noted: bool,
    is_ended: bool,
    was_read: bool,
    requested: usize,
}

impl<'a> Spoken<'a> {
    fn new(text: &'a [u8], piece: usize) -> Spoken<'a> {
        Spoken {
            text,
            piece,
            is_noted: false,
            is_ended: false,
            was_read: false,
            requested: 0,
        }
    }
}

impl<'a> Link for Spoken<'a> {
    ghost use Rattle.std.specs.Prelude.{None};

    ghost shown = { λ s. record {
      given = None;
      taken = None;
      faults = 0;
      is_ended = s.is_ended;
      was_read = s.was_read;
      requested = s.requested;
    } };

    fn try_read(&mut self, piece: &mut [u8]) -> Result<Got, LinkFault> {
        self.was_read = true;
        self.requested = piece.len();
        let count = self.text.len().min(self.piece).min(piece.len());
        if count == 0 {
            self.is_ended = true;
            return Ok(Got::End);
        }
        let (front, rest) = self.text.split_at(count);
        let (place, _) = piece.split_at_mut(count);
        place.copy_from_slice(front);
        self.text = rest;
        Ok(Got::Bytes(count))
    }

    fn try_write(&mut self, bytes: &[u8]) -> Result<Took, LinkFault> {
        self.was_read = false;
        self.requested = bytes.len();
        Ok(Took::Later)
    }

    fn faults(&self) -> u64 {
        0
    }
}

impl<'a> Peer for Spoken<'a> {
    fn note_other(&mut self) {
        self.is_noted = true;
    }
}

/// Returns how many bytes a screen hands on of a text that comes in pieces, until its end.
fn handed_on(text: &[u8], piece: usize) -> usize {
    let mut screen = Screen::new(Spoken::new(text, piece));
    let mut room = [0u8; 32];
    let mut count = 0usize;
    for _read in 0..100u32 {
        match screen.try_read(&mut room) {
            Ok(Got::Bytes(more)) => count = count.saturating_add(more),
            Ok(Got::Later) => {}
            Ok(Got::End) | Err(LinkFault) => return count,
        }
    }
    count
}

/// Returns whether a screen of a text notes another protocol.
fn is_noted(text: &[u8]) -> bool {
    let mut screen = Screen::new(Spoken::new(text, 32));
    let mut room = [0u8; 32];
    let _ = screen.try_read(&mut room);
    screen.link().is_noted
}

#[test]
fn a_request_line_is_the_last_that_is_handed_on(rt: HostRuntime) -> Result<(), Fail> {
    for (text, expected) in &ROWS {
        assert!(rt; handed_on(text, 32) == *expected);
        assert!(rt; handed_on(text, 5) == *expected);
        assert!(rt; handed_on(text, 1) == *expected);
    }
    Ok(())
}

#[test]
fn nothing_of_a_header_is_handed_on(rt: HostRuntime) -> Result<(), Fail> {
    assert!(rt; handed_on(HEADER, 32) == 0);
    assert!(rt; handed_on(HEADER, 23) == 23);
    assert!(rt; is_noted(HEADER) && is_noted(b"POST / HTTP/1.1\n"));
    assert!(rt; !is_noted(b"get a HTTP/1.1\n"));
    Ok(())
}

#[test]
fn a_header_is_known_with_its_last_byte(rt: HostRuntime) -> Result<(), Fail> {
    let (most, _) = HEADER.split_at(23);
    assert!(rt;
        matches!(
            Part::Nothing.judge(most),
            PieceOpening::Open(Part::Header(_))
        )
    );
    let whole = Part::Nothing.judge(HEADER);
    assert!(rt; matches!(whole, PieceOpening::Other(Protocol::Binary, 24)));
    Ok(())
}

#[test]
fn a_screen_writes_and_pauses_as_its_link_does(rt: HostRuntime) -> Result<(), Fail> {
    let mut screen = Screen::new(Spoken::new(b"", 1));
    assert!(rt; matches!(screen.try_write(b"a"), Ok(Took::Later)));
    assert!(rt; matches!(screen.try_write_all(b"a", b"b", b""), Ok(Took::Later)));
    assert!(rt; screen.pause().is_ok());
    screen.send_soon();
    screen.refused();
    assert!(rt; screen.faults() == 0 && screen.capacity() == 0);
    Ok(())
}
