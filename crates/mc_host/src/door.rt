//! The listener for scrapes.
ghost use Rattle.std.specs.Prelude.{IfErr};
ghost use Rattle.mc_host.specs.Ends.{EndsWithoutDoor};

use crate::end::End;
use mc_options::ListenAddress;
use mio::net::{TcpListener, TcpStream};
use mio::{Events, Interest, Poll, Token};
use std::alloc::Global;
use std::net::{Net, SocketAddr};
use std::time::{Clock, Duration};
use std::{io, thread};

/// The pause if the system can't report connections, in milliseconds.
const PAUSE: u64 = 10;

/// A listener for scrapes, and a poll of it and of its connections.
#[derive(Drop)]
pub struct ScrapeListener {
    listener: TcpListener,
    poll: Poll,
    events: Events,
}

/// Listens for scrapes at an endpoint, if one is given.
///
/// The error ends the program: it can't listen there, or memory is refused.
pub fn open_door<R: Net>(
    rt: &R,
    alloc: Global,
    asked: Option<ListenAddress>,
) -> Result<Option<ScrapeListener>, End>
    ensures { IfErr result (EndsWithoutDoor asked) }
{
    let Some(endpoint) = asked else {
        return Ok(None);
    };
    match ScrapeListener::open(
        rt,
        alloc,
        SocketAddr::from((endpoint.address, endpoint.port)),
    ) {
        Ok(door) => Ok(Some(door)),
        Err(error) => Err(End::without(endpoint, &error)),
    }
}

impl ScrapeListener {
    /// Listens at an address and a port.
    fn open<R: Net>(rt: &R, alloc: Global, place: SocketAddr) -> io::Result<ScrapeListener> {
        let mut listener = TcpListener::bind(rt, place)?;
        let poll = Poll::new(rt)?;
        poll.registry()
            .register(&mut listener, Token(0), Interest::READABLE)?;
        let events = Events::with_capacity(alloc, 1)?;
        Ok(ScrapeListener {
            listener,
            poll,
            events,
        })
    }

    /// Waits until a connection comes or one that was accepted goes on, or it has rested so long.
    pub fn wait<R: Clock>(&mut self, rt: &R, rest: Duration) {
        if self.poll.poll(&mut self.events, Some(rest)).is_err() {
            let _ = thread::sleep(rt, Duration::from_millis(PAUSE));
        }
    }

    /// Accepts a connection, and returns it with its peer. Its calls don't block, and what becomes
    /// of it ends a wait.
    pub fn accept(&self) -> io::Result<(TcpStream, SocketAddr)> {
        let (stream, peer) = self.listener.accept()?;
        let mut stream = stream;
        let all = Interest::READABLE | Interest::WRITABLE;
        self.poll.registry().register(&mut stream, Token(1), all)?;
        Ok((stream, peer))
    }
}
