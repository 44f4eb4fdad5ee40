//! Endpoints whose connections another listener accepts.
//!
//! Linux lets a listener at `::` accept IPv4, too, unless `net.ipv6.bindv6only` is 1. A second
//! listener at 0.0.0.0 and the same port is refused then, and isn't needed.
ghost use Rattle.std.specs.Prelude.{◌≡◌, IfOk, IfErr};
ghost use Rattle.std.specs.List.{list_any};
ghost use Rattle.mc_options.specs.declared.endpoints.ListenAddress.{ListenAddress};
ghost use Rattle.mc_host.specs.Ends.{EndsUnbound, IsOneOf};
ghost use Rattle.mc_host.specs.Covers.{HasListeners, all_of, bound_among, bound_of};
ghost use Rattle.mc_host.specs.Covers.{is_all_of_version_4, is_all_of_version_6};
ghost use Rattle.mc_host.specs.Covers.{is_covered, is_wide_at};

use crate::binding::{Listeners, bound_all};
use crate::end::End;
use mc_options::{Endpoints, ListenAddress};
use std::alloc::{AllocError, AllocGlobal, Global};
use std::fs::{self, Files};
use std::net::{IpAddr, Net};

/// The file that has 0 if a listener at `::` accepts IPv4, too.
const APART: &str = "/proc/sys/net/ipv6/bindv6only";

/// Binds a listener at each endpoint that needs one of its own.
///
/// The error ends the program: an endpoint can't be bound, or memory is refused.
pub fn bind_needed<R: Net + Files + AllocGlobal>(
    rt: &R,
    endpoints: &Endpoints,
) -> Result<Listeners, End>
    ensures each { IfOk result (λ listeners. HasListeners endpoints.now listeners) }
    ensures ends { IfErr result (EndsUnbound endpoints.now) }
{
    match bound_of(rt.alloc(), endpoints, is_dual(rt)) {
        Ok(bound) => bound_all(rt, rt.alloc(), &bound),
        Err(AllocError) => Err(End::NoMemory),
    }
}

/// Returns whether a listener at `::` accepts IPv4, too. Returns false if the system doesn't report
/// it.
fn is_dual<R: Files + AllocGlobal>(rt: &R) -> bool {
    match fs::read_to_string(rt, APART) {
        Ok(text) => text.as_str().trim() == "0",
        Err(_) => false,
    }
}

/// Returns the endpoints that need a listener of their own, in order.
///
/// If `is_dual`, these are all but each 0.0.0.0 at whose port `::` is another. The only error is a
/// refused allocation.
fn bound_of(alloc: Global, endpoints: &Endpoints, is_dual: bool) -> Result<Endpoints, AllocError>
    ensures bound { IfOk result (λ bound.
        all_of bound ≡ bound_of is_dual (all_of endpoints.now)) }
    ensures each { IfOk result (λ bound.
        (one : ListenAddress) → IsOneOf bound one → IsOneOf endpoints.now one) }
{
    let others = others_of(alloc, endpoints, is_dual)?;
    Ok(led_by(endpoints, is_dual, others))
}

/// Returns these endpoints, and the first of all before them if it needs a listener of its own.
fn led_by(endpoints: &Endpoints, is_dual: bool, others: Vec<ListenAddress>) -> Endpoints
    requires { others.items ≡ bound_among is_dual (all_of endpoints.now)
        endpoints.now.others.items }
    ensures { all_of result ≡ bound_of is_dual (all_of endpoints.now) }
{
    let mut others = others;
    if is_dual && is_covered(endpoints, endpoints.first) && !others.is_empty() {
        let first = others.remove(0);
        return Endpoints { first, others };
    }
    Endpoints {
        first: endpoints.first,
        others,
    }
}

/// Returns the endpoints behind the first that need a listener of their own.
fn others_of(
    alloc: Global,
    endpoints: &Endpoints,
    is_dual: bool,
) -> Result<Vec<ListenAddress>, AllocError>
    ensures { IfOk result (λ others. others.items
        ≡ bound_among is_dual (all_of endpoints.now) endpoints.now.others.items) }
{
    let mut others = Vec::new(alloc);
    for endpoint in &endpoints.others {
        if !(is_dual && is_covered(endpoints, *endpoint)) {
            others.push(*endpoint)?;
        }
    }
    Ok(others)
}

/// Returns whether another endpoint's listener accepts the connections of this one.
fn is_covered(endpoints: &Endpoints, one: ListenAddress) -> bool
    ensures { result ≡ is_covered (all_of endpoints.now) one }
{
    is_all_of_version_4(one.address)
        && (is_wide_at(one.port, endpoints.first) || has_wide_at(one.port, endpoints))
}

/// Returns whether `::` at this port is one of the endpoints behind the first.
fn has_wide_at(port: u16, endpoints: &Endpoints) -> bool
    ensures { result ≡ list_any (is_wide_at port) endpoints.now.others.items }
{
    for endpoint in &endpoints.others {
        if is_wide_at(port, *endpoint) {
            return true;
        }
    }
    false
}

/// Returns whether an endpoint is `::` at this port.
fn is_wide_at(port: u16, one: ListenAddress) -> bool
    ensures { result ≡ is_wide_at port one }
{
    is_all_of_version_6(one.address) && one.port == port
}

/// Returns whether an address is 0.0.0.0.
fn is_all_of_version_4(address: IpAddr) -> bool
    ensures { result ≡ is_all_of_version_4 address }
{
    match address {
        IpAddr::V4(address) => address.octets() == [0; 4],
        IpAddr::V6(_) => false,
    }
}

/// Returns whether an address is `::`.
fn is_all_of_version_6(address: IpAddr) -> bool
    ensures { result ≡ is_all_of_version_6 address }
{
    match address {
        IpAddr::V4(_) => false,
        IpAddr::V6(address) => address.segments() == [0; 8],
    }
}
