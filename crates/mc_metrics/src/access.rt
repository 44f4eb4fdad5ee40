//! Who may end the server, by a request for the path `/quit`.
//!
//! A peer of the loopback may. Browsers on this machine are such peers, and any page in them may
//! send a request: a page's request has an `Origin`, or its `Host` is the page's own name, which a
//! name server may resolve to 127.0.0.1. So both are refused.
ghost use Rattle.std.specs.Prelude.{◌≡◌, ◌≤◌, ◌==◌, ◌||◌, not, length, map, All};
ghost use Rattle.std.specs.List.{list_any, list_all, prefix_len};
ghost use Rattle.std.specs.Str.{str_eq_ignore_ascii_case};
ghost use Rattle.httparse.specs.Spans.{IsHeaderWithin, header_bytes};
ghost use Rattle.std.specs.Char.{is_ascii_digit};
ghost use Rattle.mc_metrics.specs.Access.{up_to, from, is_one, is_mapped_loopback, is_loopback};
ghost use Rattle.mc_metrics.specs.Access.{is_address_byte, is_loopback_address, is_port};
ghost use Rattle.mc_metrics.specs.Access.{is_loopback_name, is_loopback_literal};
ghost use Rattle.mc_metrics.specs.Access.{is_loopback_host, is_foreign, is_trusted};

use httparse::spans::HeaderSpan;
use std::net::IpAddr;

/// Returns whether a peer with this address, whose request has these fields, may end the server.
pub(crate) fn is_trusted(peer: IpAddr, bytes: &[u8], spans: &[HeaderSpan]) -> bool
    requires { All (IsHeaderWithin (length bytes.now)) spans.now }
    ensures { result ≡ is_trusted peer (map (header_bytes bytes.now) spans.now) }
{
    is_loopback(peer) && !has_foreign(bytes, spans)
}

/// Returns whether an address is the loopback's.
fn is_loopback(peer: IpAddr) -> bool
    ensures { result ≡ is_loopback peer }
{
    match peer {
        IpAddr::V4(address) => address.octets()[0] == 127,
        IpAddr::V6(address) => is_loopback_v6(&address.segments()),
    }
}

/// Returns whether the segments are those of `::1`, or of an address of version 4 that begins with
/// 127.
fn is_loopback_v6(segments: &[u16; 8]) -> bool
    ensures { result ≡ is_one segments.now || is_mapped_loopback segments.now }
{
    let [a, b, c, d, e, f, g, h] = *segments;
    let is_zero = a == 0 && b == 0 && c == 0 && d == 0 && e == 0;
    is_zero && ((f == 0 && g == 0 && h == 1) || (f == 65535 && g / 256 == 127))
}

/// Returns whether a field shows that a page of another site may have made the request.
fn has_foreign(bytes: &[u8], spans: &[HeaderSpan]) -> bool
    requires { All (IsHeaderWithin (length bytes.now)) spans.now }
    ensures { result ≡ list_any (λ span. is_foreign (header_bytes bytes.now span)) spans.now }
{
    for span in spans {
        if is_foreign(span.name.of(bytes), span.value.of(bytes)) {
            return true;
        }
    }
    false
}

/// Returns whether a field is an `Origin`, or a `Host` that isn't the loopback.
fn is_foreign(name: &[u8], value: &[u8]) -> bool
    ensures { result ≡ is_foreign (name.now, value.now) }
{
    is_named(name, b"origin") || (is_named(name, b"host") && !is_loopback_host(value))
}

/// Returns whether two names are equal but for the case of ASCII letters.
fn is_named(name: &[u8], other: &[u8]) -> bool
    ensures { result ≡ str_eq_ignore_ascii_case name.now other.now }
{
    name.eq_ignore_ascii_case(other)
}

/// Returns whether the value of a `Host` field names the loopback, with or without a port.
fn is_loopback_host(value: &[u8]) -> bool
    ensures { result ≡ is_loopback_host value.now }
{
    is_loopback_literal(value)
        || (is_loopback_name(up_to(b':', value)) && is_port(from(b':', value)))
}

/// Returns whether the value of a `Host` field is `::1` in brackets, with or without a port.
fn is_loopback_literal(value: &[u8]) -> bool
    ensures { result ≡ is_loopback_literal value.now }
{
    match value.strip_prefix(b"[::1]".as_slice()) {
        Some(port) => is_port(port),
        None => false,
    }
}

/// Returns whether a text behind a host is empty, or a colon and digits.
fn is_port(text: &[u8]) -> bool
    ensures { result ≡ is_port text.now }
{
    match text.split_first() {
        Some((first, digits)) => *first == b':' && are_digits(digits),
        None => true,
    }
}

/// Returns whether all bytes are digits.
fn are_digits(text: &[u8]) -> bool
    ensures { result ≡ list_all is_ascii_digit text.now }
{
    text.iter().all(|byte| byte.is_ascii_digit())
}

/// Returns whether a host without its port is the loopback's, by name or by address.
fn is_loopback_name(host: &[u8]) -> bool
    ensures { result ≡ is_loopback_name host.now }
{
    is_named(host, b"localhost") || is_loopback_address(host)
}

/// Returns whether a host is an address that begins with 127.
fn is_loopback_address(host: &[u8]) -> bool
    ensures { result ≡ is_loopback_address host.now }
{
    host.starts_with(b"127.") && are_address_bytes(host)
}

/// Returns whether all bytes are digits or dots.
fn are_address_bytes(host: &[u8]) -> bool
    ensures { result ≡ list_all is_address_byte host.now }
{
    host.iter()
        .all(|byte| byte.is_ascii_digit() || *byte == b'.')
}

/// Returns the text up to the first of these bytes, or all of it.
pub(crate) fn up_to(end: u8, text: &[u8]) -> &[u8]
    ensures { result.now ≡ up_to end text.now }
{
    let (front, _) = text.split_at(len_up_to(end, text));
    front
}

/// Returns the text from the first of these bytes on, or nothing.
fn from(start: u8, text: &[u8]) -> &[u8]
    ensures { result.now ≡ from start text.now }
{
    let (_, rest) = text.split_at(len_up_to(start, text));
    rest
}

/// Returns how many bytes stand before the first of these, or how many there are.
fn len_up_to(end: u8, text: &[u8]) -> usize
    ensures len { result ≡ prefix_len (λ b. not (b == end)) text.now }
    ensures within { result ≤ length text.now }
{
    text.iter().take_while(|byte| **byte != end).count()
}
