//! A session over TCP on 127.0.0.1, with both ends in this process.

use crate::settings::one_page;
use mc_hop::Fnv;
use mc_host::bind_listener;
use mc_metrics::Counters;
use mc_shared::Shared;
use mc_sockets::{
    Arrivals, ClosingLinks, Connection, ConnectionLimit, EVENTS, Inbox, Poller, Share, SocketLinks,
    WAKER,
};
use mc_time::{Fixed, Moment};
use mc_workers::{NoGate, work};
use mio::net::TcpStream as Stream;
use mio::{Events, Poll, Waker};
use std::io::{Read, Write};
use std::net::{Ipv4Addr, Net, Shutdown, SocketAddr, TcpListener, TcpStream};
use std::sync::{Arc, Wait};
use std::test::*;
use std::time::Clock;

/// Sends the input of a client, serves it, and returns what the client then reads.
fn told<R>(rt: &R, input: &[u8]) -> Result<Vec<u8>, Fail>
where
    R: Net<Listener = TcpListener, Stream = TcpStream> + AllocGlobal + Wait + Clock,
{
    let alloc = rt.alloc();
    let listener = bind_listener(rt, SocketAddr::from((Ipv4Addr::LOCALHOST, 0)))?;
    let address = SocketAddr::from((Ipv4Addr::LOCALHOST, listener.local_addr()?.port()));
    let mut client = TcpStream::connect(rt, address)?;
    client.write_all(input)?;
    client.shutdown(Shutdown::Write)?;
    let (stream, peer) = listener.accept()?;
    stream.set_nonblocking(true)?;
    let poll = Poll::new(rt)?;
    let mut inboxes = Vec::new(alloc);
    inboxes.push(Inbox::new(alloc, Waker::new(poll.registry(), WAKER)?)?)?;
    let arrivals = Arrivals::new(inboxes, Vec::new(alloc));
    let crowd = ConnectionLimit::new(alloc, 1, None, None)?;
    let stream = Stream::from_std(stream);
    arrivals.deal(rt, Connection::new(crowd, stream, peer), 0);
    arrivals.end();
    let (shared, caller) = Shared::new(alloc, one_page(), Fnv)?;
    let events = Events::with_capacity(alloc, EVENTS)?;
    let poller = Poller { poll, events };
    let counts = Arc::new(alloc, Counters::new())?;
    let links = SocketLinks::new(rt, alloc, &arrivals, Share::new(0), poller, counts);
    let mut links = ClosingLinks::new(links, &arrivals);
    let clock = Fixed(Moment::from_seconds_at_most(1000));
    let _ = work(rt, alloc, &shared, caller, &mut links, &NoGate, &clock);
    let mut answer = Vec::new(alloc);
    client.read_to_end(&mut answer)?;
    Ok(answer)
}

#[test]
fn a_client_is_told_the_answers(rt: HostRuntime) -> Result<(), Fail> {
    let rows: [(&[u8], &[u8]); 3] = [
        (b"", b""),
        (
            b"set a 5 0 3\r\nabc\r\nget a\r\n",
            b"STORED\r\nVALUE a 5 3\r\nabc\r\nEND\r\n",
        ),
        (
            b"set a 0 0 1 noreply\r\nx\r\nget a\r\nquit\r\nget a\r\n",
            b"VALUE a 0 1\r\nx\r\nEND\r\n",
        ),
    ];
    for (input, expected) in rows {
        let answer = told(&rt, input)?;
        assert!(rt; answer.as_slice() == expected);
    }
    Ok(())
}
