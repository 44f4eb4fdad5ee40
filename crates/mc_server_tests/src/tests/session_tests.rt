//! One session over streams in memory, by the clock of a command line, and how it ends.

use crate::settings::one_page;
use mc_hop::Fnv;
use mc_host::{AskedClock, End};
use mc_options::{Endpoints, Ignored, Options, RawOptions};
use mc_session::ServeFault;
use mc_testing::{Drip, Sip};
use mc_time::{Clock, Fixed, Moment};
use mc_world::{World, serve_one};
use std::alloc::{AllocError, Global};
use std::io::ErrorKind;
use std::test::Fail;

/// The input, and the output if the item hasn't expired. It expires at second 3000000.
const INPUT: &str = "set a 5 3000000 3\r\nabc\r\nget a\r\n";

const ALIVE: &str = "STORED\r\nVALUE a 5 3\r\nabc\r\nEND\r\n";

/// The output if the item has expired.
const DEAD: &str = "STORED\r\nEND\r\n";

/// The clock that is the system's in these tests.
const SYSTEM: u64 = 2_999_999;

/// Serves a session in a new world by the clock that is asked for. Returns how the program ends.
fn served(
    alloc: Global,
    now: Option<u64>,
    reader: &mut Drip<'_>,
    writer: &mut Sip,
) -> Result<End, AllocError> {
    let asked = RawOptions {
        stdin: true,
        now,
        pages: None,
        greatest: None,
        shelves: None,
        workers: None,
        connections: None,
        idle_timeout: None,
        buffers: None,
        scrapes: None,
        may_quit: false,
        quit: None,
        verbose: false,
    };
    let endpoints = Endpoints::new(alloc, &[], None)?;
    let ignored = Ignored {
        letters: Vec::new(alloc),
    };
    let options = Options::new(asked, one_page(), endpoints, ignored);
    let clock = AskedClock {
        asked: options.now,
        system: Fixed(Moment::from_seconds_at_most(SYSTEM)),
    };
    let Ok(mut world) = World::new(alloc, options.settings, Fnv, clock.now()) else {
        return Err(AllocError);
    };
    Ok(End::Served(serve_one(alloc, reader, writer, &mut world, &clock)))
}

#[test]
fn keeps_the_clock_that_is_asked_for(rt: HostRuntime) -> Result<(), Fail> {
    let alloc = rt.alloc();
    for (now, wanted) in [
        (None, ALIVE),
        (Some(0), ALIVE),
        (Some(SYSTEM + 1), DEAD),
        (Some(u64::MAX), DEAD),
    ] {
        let mut reader = Drip::new(INPUT.as_bytes(), 7);
        let mut writer = Sip::new(alloc, 5);
        let end = served(alloc, now, &mut reader, &mut writer)?;
        assert!(rt; matches!(end, End::Served(Ok(()))));
        assert!(rt; writer.taken_bytes() == wanted.as_bytes());
    }
    Ok(())
}

#[test]
fn tells_each_read_that_fails(rt: HostRuntime) -> Result<(), Fail> {
    let alloc = rt.alloc();
    for calls in 0..INPUT.len() {
        let mut reader = Drip::failing(INPUT.as_bytes(), calls, ErrorKind::WouldBlock);
        let mut writer = Sip::new(alloc, 5);
        let end = served(alloc, None, &mut reader, &mut writer)?;
        assert!(rt; matches!(end, End::Served(Err(ServeFault::Read))));
        assert!(rt; ALIVE.as_bytes().starts_with(writer.taken_bytes()));
        assert!(rt; end.ending() == (1, "mcserver: read fault"));
    }
    Ok(())
}

#[test]
fn tells_each_write_that_fails(rt: HostRuntime) -> Result<(), Fail> {
    let alloc = rt.alloc();
    for calls in 0..ALIVE.len() {
        let mut reader = Drip::new(INPUT.as_bytes(), 100);
        let mut writer = Sip::failing(alloc, 0, calls, ErrorKind::BrokenPipe)?;
        let end = served(alloc, None, &mut reader, &mut writer)?;
        assert!(rt; matches!(end, End::Served(Err(ServeFault::Write))));
        assert!(rt; writer.taken_bytes().len() == calls);
        assert!(rt; ALIVE.as_bytes().starts_with(writer.taken_bytes()));
    }
    Ok(())
}

#[test]
fn tells_how_a_session_ended(rt: HostRuntime) -> Result<(), Fail> {
    for (answer, expected) in [
        (Ok(()), (0, "")),
        (Err(ServeFault::Read), (1, "mcserver: read fault")),
        (Err(ServeFault::Write), (1, "mcserver: write fault")),
        (Err(ServeFault::NoMemory), (1, "mcserver: out of memory")),
    ] {
        assert!(rt; End::Served(answer).ending() == expected);
    }
    Ok(())
}
