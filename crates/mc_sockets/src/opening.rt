//! The first bytes of a connection, which may show another protocol.
//!
//! A request of HTTP is a line of this protocol that is answered `ERROR`, and the lines of its body
//! would be commands: a web page could write. A header of memcached's binary protocol is no line at
//! all. So the first bytes are followed, one by one, until they show another protocol or none.
ghost use Rattle.std.specs.Prelude.{◌≡◌, ◌∷◌, List, ℕ};
ghost use Rattle.mc_sockets.specs.Openings.{Judges, shown_behind, shown_by};

use crate::header::{HEADER, HeaderPart, MAGIC, is_binary_header};

/// The beginning of a request line's third word.
const VERSION: [u8; 7] = *b"HTTP/1.";

/// A protocol other than this one.
#[derive(Clone, Copy)]
pub enum Protocol {
    /// memcached's binary protocol.
    Binary,
    /// HTTP/1.
    Http,
}

/// A beginning that may become one of another protocol.
#[derive(Clone, Copy)]
pub enum Part {
    /// No byte came.
    Nothing,
    /// A part of a header of the binary protocol.
    Header(HeaderPart),
    /// A part of a request line's first word.
    Method,
    /// Its first word, and the space behind it.
    Space,
    /// The same, and a part of its second word.
    Target,
    /// Two words, their spaces, and this many bytes of `HTTP/1.`; of 7 on any more of the word.
    Version(usize),
}

/// What is known of a connection's first bytes.
#[derive(Clone, Copy)]
pub enum Opening {
    /// They may be those of another protocol.
    Open(Part),
    /// They are of no other protocol that is known here.
    Settled,
    /// They are of this protocol.
    Other(Protocol),
}

/// What is known behind a piece of more bytes.
#[derive(Clone, Copy)]
pub enum PieceOpening {
    /// They may be those of another protocol.
    Open(Part),
    /// They are of no other protocol that is known here.
    Settled,
    /// They are of this protocol, as the first bytes of the piece show, this many.
    Other(Protocol, usize),
}

impl Part {
    /// Returns what is known behind one more byte.
    fn after(self, byte: u8) -> Opening
        ensures { (text : List ℕ) →
            shown_by result text ≡ shown_behind self (byte ∷ text) }
    {
        match self {
            Part::Nothing => first(byte),
            Part::Header(header) => in_header(header, byte),
            Part::Method => match byte {
                b' ' => Opening::Open(Part::Space),
                b'\n' => Opening::Settled,
                _ => Opening::Open(Part::Method),
            },
            Part::Space => match byte {
                b' ' | b'\n' => Opening::Settled,
                _ => Opening::Open(Part::Target),
            },
            Part::Target => match byte {
                b' ' => Opening::Open(Part::Version(0)),
                b'\n' => Opening::Settled,
                _ => Opening::Open(Part::Target),
            },
            Part::Version(count) => in_version(count, byte),
        }
    }

    /// Judges a piece of more bytes.
    pub fn judge(self, bytes: &[u8]) -> PieceOpening
        ensures { Judges self bytes.now result }
    {
        let mut part = self;
        for at in 0..bytes.len() {
            match part.after(bytes[at]) {
                Opening::Open(next) => part = next,
                Opening::Settled => return PieceOpening::Settled,
                Opening::Other(protocol) => return PieceOpening::Other(protocol, at + 1),
            }
        }
        PieceOpening::Open(part)
    }
}

/// Returns what is known behind one more byte of a header.
fn in_header(header: HeaderPart, byte: u8) -> Opening
    ensures { (text : List ℕ) →
        shown_by result text ≡ shown_behind (Part.Header header) (byte ∷ text) }
{
    let mut bytes = header.bytes;
    bytes[header.count] = byte;
    let count = header.count + 1;
    if count < HEADER {
        return Opening::Open(Part::Header(HeaderPart { bytes, count }));
    }
    if is_binary_header(&bytes) {
        Opening::Other(Protocol::Binary)
    } else {
        Opening::Settled
    }
}

/// Returns what is known behind the first byte.
fn first(byte: u8) -> Opening
    ensures { (text : List ℕ) →
        shown_by result text ≡ shown_behind Part.Nothing (byte ∷ text) }
{
    if byte == MAGIC {
        return Opening::Open(Part::Header(HeaderPart::begun()));
    }
    if byte.is_ascii_uppercase() {
        Opening::Open(Part::Method)
    } else {
        Opening::Settled
    }
}

/// Returns what is known behind one more byte of a third word that has `count` bytes.
fn in_version(count: usize, byte: u8) -> Opening
    ensures { (text : List ℕ) →
        shown_by result text ≡ shown_behind (Part.Version count) (byte ∷ text) }
{
    if count < VERSION.len() {
        return if byte == VERSION[count] {
            Opening::Open(Part::Version(count + 1))
        } else {
            Opening::Settled
        };
    }
    match byte {
        b'\n' => Opening::Other(Protocol::Http),
        b' ' => Opening::Settled,
        _ => Opening::Open(Part::Version(count)),
    }
}
