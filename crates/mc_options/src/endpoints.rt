//! Where the program listens, and how the command line gives it.
//!
//! `-l` takes addresses and no names: a name may stand for several addresses, or for another one
//! tomorrow.
ghost use Rattle.std.specs.Prelude.{◌≡◌, IfOk};
ghost use Rattle.mc_options.specs.Asked.{IsAddressFor, IsEndpointsFor, endpoint_for, port_for};

use std::alloc::{AllocError, Global};
use std::fmt::{self, Display, Formatter};
use std::net::{IpAddr, Ipv4Addr, Ipv6Addr, SocketAddr};

/// The default port.
const PORT: u16 = 11211;

/// An address of the command line at which to listen.
#[derive(Clone, Copy)]
pub struct AskedAddress {
    pub address: IpAddr,
    /// The port behind it.
    pub port: Option<u16>,
}

/// An address and a port at which to listen.
#[derive(Clone, Copy, Drop)]
pub struct ListenAddress {
    pub address: IpAddr,
    /// The TCP port, 1 to 65535.
    pub port: u16,
}

/// All endpoints of a program, at least one.
#[derive(Drop)]
pub struct Endpoints {
    pub first: ListenAddress,
    pub others: Vec<ListenAddress>,
}

impl AskedAddress {
    /// Reads an address, alone or with a port: `10.0.0.5`, `10.0.0.5:80`, `::1`, `[::1]`,
    /// `[::1]:80`.
    pub fn of(text: &str) -> Option<AskedAddress> {
        // a scope, as in `[fe80::1%2]:80`, would be lost
        if text.contains('%') {
            return None;
        }
        match lone_address(text) {
            Some(address) => Some(AskedAddress {
                address,
                port: None,
            }),
            None => address_and_port(text),
        }
    }
}

/// Reads an address without a port: `10.0.0.5`, `::1`, `[::1]`.
fn lone_address(text: &str) -> Option<IpAddr> {
    if let Ok(address) = text.parse::<IpAddr>() {
        return Some(address);
    }
    let inside = strip_brackets(text)?;
    match inside.parse::<Ipv6Addr>() {
        Ok(address) => Some(IpAddr::V6(address)),
        Err(_) => None,
    }
}

/// Reads an address and the port behind it: `10.0.0.5:80`, `[::1]:80`.
fn address_and_port(text: &str) -> Option<AskedAddress> {
    match text.parse::<SocketAddr>() {
        Ok(place) if place.port() > 0 => Some(AskedAddress {
            address: place.ip(),
            port: Some(place.port()),
        }),
        _ => None,
    }
}

/// Returns the text between `[` and `]`.
fn strip_brackets(text: &str) -> Option<&str> {
    text.strip_prefix('[')?.strip_suffix(']')
}

impl Endpoints {
    /// Returns one endpoint for each address of `-l`, in order; without any, one at 127.0.0.1.
    ///
    /// Its port is the one behind the address, else that of `-p`, else 11211. The port 0, which is
    /// refused before, becomes 1. The only error is a refused allocation.
    pub fn new(
        alloc: Global,
        asked: &[AskedAddress],
        port: Option<u16>,
    ) -> Result<Endpoints, AllocError>
        ensures { IfOk result (λ endpoints. IsEndpointsFor port asked.now endpoints) }
    {
        let Some((first, more)) = asked.split_first() else {
            return Ok(Endpoints {
                first: own_endpoint(port),
                others: Vec::new(alloc),
            });
        };
        let mut others = Vec::new(alloc);
        for address in more {
            others.push(endpoint_of(port, *address))?;
        }
        Ok(Endpoints {
            first: endpoint_of(port, *first),
            others,
        })
    }
}

impl Display for ListenAddress {
    fn fmt<W: fmt::Write>(&self, f: &mut Formatter<W>) -> fmt::Result {
        let place = SocketAddr::from((self.address, self.port));
        write!(f, "{place}")
    }
}

impl Display for Endpoints {
    fn fmt<W: fmt::Write>(&self, f: &mut Formatter<W>) -> fmt::Result {
        let first = self.first;
        write!(f, "{first}")?;
        for other in &self.others {
            write!(f, ", {other}")?;
        }
        Ok(())
    }
}

/// Returns the endpoint at 127.0.0.1.
fn own_endpoint(port: Option<u16>) -> ListenAddress
    ensures address { IsAddressFor None result.address }
    ensures port { result.port ≡ port_for None port }
{
    ListenAddress {
        address: address_of(None),
        port: port_of(None, port),
    }
}

/// Returns the endpoint of an address of `-l`, given the port of `-p`.
fn endpoint_of(port: Option<u16>, asked: AskedAddress) -> ListenAddress
    ensures { result ≡ endpoint_for port asked }
{
    ListenAddress {
        address: asked.address,
        port: port_of(asked.port, port),
    }
}

/// Returns the port behind an address, else that of `-p`, else the default.
fn port_of(behind: Option<u16>, asked: Option<u16>) -> u16
    ensures { result ≡ port_for behind asked }
{
    match (behind, asked) {
        (Some(port), _) | (None, Some(port)) => port.max(1),
        (None, None) => PORT,
    }
}

/// Returns the address, or 127.0.0.1 if there is none.
pub fn address_of(asked: Option<IpAddr>) -> IpAddr
    ensures { IsAddressFor asked result }
{
    match asked {
        Some(address) => address,
        None => IpAddr::V4(Ipv4Addr::LOCALHOST),
    }
}
