//! Links that gather output, over a link in memory.
//!
//! That link takes a few bytes at a time and none at every other call, and may fail at one call.

use mc_guests::{Gathering, Got, Link, LinkFault, Took};
use mc_testing::{Call, Calls};
use std::alloc::{AllocError, Global};
use std::marker::Model;
use std::test::*;

/// A link in memory that takes at most `width` bytes at once, and whose reads return the end.
#[derive(Drop)]
struct Narrow {
    width: usize,
    taken: Vec<u8>,
    is_ended: bool,
    was_read: bool,
    requested: usize,
    calls: Calls,
}

impl Model for Narrow {
    ghost use Rattle.std.specs.Prelude.{[], Some};
    ghost use Rattle.mc_guests.specs.Links.{LinkState};

    ghost Value = { LinkState };

    ghost view = { λ s. record {
      given = Some [];
      taken = Some s.taken.items;
      faults = s.calls;
      is_ended = s.is_ended;
      was_read = s.was_read;
      requested = s.requested;
    } };
}

impl Narrow {
    ghost use Rattle.std.specs.Prelude.{◌≡◌, length};
    ghost use Rattle.mc_guests.specs.Links.{IsWrite};

    /// Takes a front of the bytes.
    fn take(&mut self, bytes: &[u8]) -> Result<Took, LinkFault>
        ensures takes { IsWrite self.old bytes.now result self.new }
        ensures offered { self.new.requested ≡ length bytes.now }
    {
        self.was_read = false;
        self.requested = bytes.len();
        let count = bytes.len().min(self.width);
        let (front, _) = bytes.split_at(count);
        match self.taken.extend_from_slice(front) {
            Ok(()) => Ok(Took::Bytes(count)),
            Err(_) => Ok(Took::Later),
        }
    }
}

impl Link for Narrow {
    ghost shown = { λ s. s };

    fn try_read(&mut self, piece: &mut [u8]) -> Result<Got, LinkFault> {
        self.was_read = true;
        self.requested = piece.len();
        match self.calls.next() {
            Call::Fails => Err(LinkFault),
            Call::GivesNone | Call::IsEmpty => Ok(Got::Later),
            Call::GoesOn => {
                self.is_ended = true;
                Ok(Got::End)
            }
        }
    }

    fn try_write(&mut self, bytes: &[u8]) -> Result<Took, LinkFault> {
        self.was_read = false;
        self.requested = bytes.len();
        match self.calls.next() {
            Call::Fails => Err(LinkFault),
            Call::GivesNone | Call::IsEmpty => Ok(Took::Later),
            Call::GoesOn => self.take(bytes),
        }
    }

    fn faults(&self) -> u64 {
        self.calls.faults()
    }
}

/// The most tries of a call.
const TRIES: usize = 1_000_000;

/// The lengths of the texts that are written in order: some are gathered, some aren't.
static LENGTHS: [usize; 8] = [10, 0, 5000, 40000, 3, 33000, 70000, 1];

/// The sum of these lengths.
const ALL: usize = 148_014;

/// Returns `length` bytes that differ by their places.
fn text_of(alloc: Global, length: usize) -> Result<Vec<u8>, AllocError> {
    let mut text = Vec::new(alloc);
    for at in 0..length {
        text.push((at % 251) as u8)?;
    }
    Ok(text)
}

/// Returns at most `length` bytes from a place on.
fn part_of(text: &[u8], at: usize, length: usize) -> &[u8] {
    let (_, rest) = text.split_at(at.min(text.len()));
    let (part, _) = rest.split_at(length.min(rest.len()));
    part
}

/// Writes a front of the bytes once, and returns how many were taken. A fault is counted.
fn write_once(gathering: &mut Gathering<Narrow>, bytes: &[u8], faults: &mut u64) -> usize {
    match gathering.try_write(bytes) {
        Ok(Took::Bytes(count)) => count,
        Ok(Took::Later) => 0,
        Err(LinkFault) => {
            *faults = faults.saturating_add(1);
            0
        }
    }
}

/// Writes all of the bytes, and returns whether they were taken.
fn write_all(gathering: &mut Gathering<Narrow>, bytes: &[u8], faults: &mut u64) -> bool {
    let mut at = 0usize;
    for _try in 0..TRIES {
        if at >= bytes.len() {
            return true;
        }
        let rest = part_of(bytes, at, bytes.len());
        at = at.saturating_add(write_once(gathering, rest, faults));
    }
    false
}

/// Reads until the end, and returns whether nothing was gathered then.
fn read_end(gathering: &mut Gathering<Narrow>, faults: &mut u64) -> bool {
    let mut piece: [u8; 1] = [0];
    for _try in 0..TRIES {
        match gathering.try_read(&mut piece) {
            Ok(Got::End) => return gathering.is_empty(),
            Ok(Got::Later) => {}
            Ok(Got::Bytes(_)) => return false,
            Err(LinkFault) => *faults = faults.saturating_add(1),
        }
    }
    false
}

/// Writes the texts through a link that gathers, and returns whether that was right.
///
/// The link below must take every byte once and in order, and each of its faults must be reported
/// once.
fn goes_through(alloc: Global, width: usize, fails_at: u64) -> Result<bool, AllocError> {
    let text = text_of(alloc, ALL)?;
    let link = Narrow {
        width,
        taken: Vec::new(alloc),
        is_ended: false,
        was_read: false,
        requested: 0,
        calls: Calls::failing_at(fails_at),
    };
    let mut gathering = Gathering::new(alloc, link);
    Ok(takes_each_byte_once(&mut gathering, text.as_slice()))
}

/// The same for the texts of this one, through a link that gathered nothing.
fn takes_each_byte_once(gathering: &mut Gathering<Narrow>, text: &[u8]) -> bool {
    let mut faults = 0u64;
    let mut at = 0usize;
    let mut is_taken = true;
    for length in &LENGTHS {
        let part = part_of(text, at, *length);
        is_taken = is_taken && write_all(gathering, part, &mut faults);
        at = at.saturating_add(*length);
    }
    let is_over = is_taken && read_end(gathering, &mut faults);
    let is_same = gathering.link().taken.as_slice() == text;
    is_over && is_same && faults == gathering.faults()
}

/// How many bytes the link below takes at once, and which of its calls fails.
static ROWS: [(usize, u64); 8] = [
    (1, 0),
    (1, 20000),
    (7, 3),
    (4096, 0),
    (4096, 1),
    (65537, 2),
    (200_000, 0),
    (200_000, 5),
];

#[test]
fn a_link_below_takes_each_byte_once(rt: HostRuntime) -> Result<(), Fail> {
    for row in &ROWS {
        assert!(rt; goes_through(rt.alloc(), row.0, row.1)?);
    }
    Ok(())
}
