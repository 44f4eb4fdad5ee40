//! Listeners, and the descriptors that they need.
ghost use Rattle.std.specs.Prelude.{◌≡◌, ◌+◌, length, IfOk, IfErr};
ghost use Rattle.mc_host.specs.Ends.{EndsUnbound, EndsUnboundAt};

use crate::end::{End, ListenFaultKind};
use mc_options::{Endpoints, ListenAddress};
use std::alloc::{AllocError, Global};
use std::io::{self, ErrorKind};
use std::net::{Net, SocketAddr, TcpListener, TcpStream};
use std::os::fd::OwnedFd;

/// A listener at each endpoint.
#[derive(Drop)]
pub struct Listeners {
    pub first: TcpListener,
    pub others: Vec<TcpListener>,
}

/// What the system lacks for a start.
#[derive(Drop)]
pub enum Wanting {
    /// A descriptor.
    Descriptor(ListenFaultKind),
    Memory,
    Thread,
}

impl From<io::Error> for Wanting {
    fn from(error: io::Error) -> Wanting {
        if error.kind() == ErrorKind::OutOfMemory {
            Wanting::Memory
        } else {
            Wanting::Descriptor(ListenFaultKind::of(&error))
        }
    }
}

impl From<AllocError> for Wanting {
    fn from(_refused: AllocError) -> Wanting {
        Wanting::Memory
    }
}

/// Binds a listener, whose accepts wait.
pub fn bind_listener<R: Net>(rt: &R, address: SocketAddr) -> io::Result<TcpListener> {
    // std's listener lets 128 connections wait, this one as many as the system allows
    let listener = TcpListener::from(mio::net::TcpListener::bind(rt, address)?);
    listener.set_nonblocking(false)?;
    Ok(listener)
}

/// Binds a listener at each endpoint.
///
/// The error ends the program: an endpoint can't be bound, or memory is refused.
pub fn bound_all<R: Net>(rt: &R, alloc: Global, endpoints: &Endpoints) -> Result<Listeners, End>
    ensures each { IfOk result (λ listeners.
        length listeners.others.items ≡ length endpoints.now.others.items) }
    ensures ends { IfErr result (EndsUnbound endpoints.now) }
{
    let first = match bound_at(rt, endpoints.first) {
        Ok(listener) => listener,
        Err(end) => return Err(end),
    };
    let mut others = Vec::new(alloc);
    for endpoint in &endpoints.others {
        let listener = match bound_at(rt, *endpoint) {
            Ok(listener) => listener,
            Err(end) => return Err(end),
        };
        if others.push(listener).is_err() {
            return Err(End::NoMemory);
        }
    }
    Ok(Listeners { first, others })
}

/// Binds a listener at an endpoint.
///
/// The error ends the program: the endpoint can't be bound, or memory is refused.
fn bound_at<R: Net>(rt: &R, endpoint: ListenAddress) -> Result<TcpListener, End>
    ensures { IfErr result (EndsUnboundAt endpoint) }
{
    match bind_listener(rt, SocketAddr::from((endpoint.address, endpoint.port))) {
        Ok(listener) => Ok(listener),
        Err(error) => Err(End::without(endpoint, &error)),
    }
}

/// Returns the listeners' sockets as streams, which can be shut down.
///
/// It fails if the system has no descriptor for one, or if memory is refused.
pub fn sockets_of(alloc: Global, listeners: &Listeners) -> Result<Vec<TcpStream>, Wanting>
    ensures { IfOk result (λ sockets.
        length sockets.items ≡ length listeners.now.others.items + 1) }
{
    let mut sockets = Vec::new(alloc);
    let first = socket_of(&listeners.first)?;
    sockets.push(first).map_err(|_| AllocError)?;
    for listener in &listeners.others {
        let socket = socket_of(listener)?;
        sockets.push(socket).map_err(|_| AllocError)?;
    }
    Ok(sockets)
}

/// Returns a listener's socket as a stream, which can be shut down.
fn socket_of(listener: &TcpListener) -> io::Result<TcpStream> {
    Ok(TcpStream::from(OwnedFd::from(listener.try_clone()?)))
}

/// Checks that the system has descriptors for one connection and for the spare ones.
///
/// There is one spare descriptor for each listener. It fails if a descriptor is missing, or if
/// memory is refused.
pub fn look_for_descriptors(alloc: Global, listeners: &Listeners) -> Result<(), Wanting> {
    let _connection = listeners.first.try_clone()?;
    let _spare = listeners.first.try_clone()?;
    let mut spares = Vec::new(alloc);
    for listener in &listeners.others {
        let spare = listener.try_clone()?;
        spares.push(spare).map_err(|_| AllocError)?;
    }
    Ok(())
}
