//! The answers over HTTP.
ghost use Rattle.std.specs.Prelude.{◌≡◌, IfOk};
ghost use Rattle.mc_metrics.specs.Scrapes.{body_of, methods_of, response_text};
ghost use Rattle.mc_metrics.specs.Scrapes.{sent_of, status_line_of, type_of, whole};

use itoa::Buffer;
use std::alloc::{AllocError, Global};

/// The answer if memory for an answer is refused.
pub const NO_MEMORY: &[u8] =
    b"HTTP/1.1 503 Service Unavailable\r\nConnection: close\r\nContent-Length: 0\r\n\r\n";

/// The answer to a request.
#[derive(Clone, Copy)]
pub enum HttpAnswer {
    /// The page with links to the others.
    Index,
    /// The page of metrics.
    Metrics,
    /// It serves.
    Healthy,
    /// There is no such page.
    NotFound,
    /// The method is neither `GET` nor `HEAD`.
    NotAllowed,
    /// The server is about to end.
    Stopping,
    /// The server is asked to end, and can't be called.
    CannotStop,
    /// The peer may not end the server.
    Forbidden,
    /// The server ends only by `POST`.
    NotPosted,
    /// It isn't a request.
    Bad,
    /// The request wasn't complete in time.
    TooSlow,
    /// The request is too long.
    TooLong,
    /// Memory for the page was refused.
    NoMemory,
}

/// The reply to a request.
#[derive(Clone, Copy)]
pub struct HttpReply {
    pub answer: HttpAnswer,
    /// Whether its body isn't sent, as the request was a `HEAD`.
    pub is_head: bool,
}

impl HttpReply {
    /// Returns a reply with its body.
    pub fn whole(answer: HttpAnswer) -> HttpReply
        ensures { result ≡ whole answer }
    {
        HttpReply {
            answer,
            is_head: false,
        }
    }
}

impl HttpAnswer {
    /// Returns the status line.
    fn status_line(self) -> &'static [u8]
        ensures { result.now ≡ status_line_of self }
    {
        match self {
            HttpAnswer::Index | HttpAnswer::Metrics | HttpAnswer::Healthy | HttpAnswer::Stopping =>
                { b"HTTP/1.1 200 OK\r\n" }
            HttpAnswer::NotFound => b"HTTP/1.1 404 Not Found\r\n",
            HttpAnswer::Forbidden => b"HTTP/1.1 403 Forbidden\r\n",
            HttpAnswer::NotAllowed | HttpAnswer::NotPosted =>
                b"HTTP/1.1 405 Method Not Allowed\r\n",
            HttpAnswer::Bad => b"HTTP/1.1 400 Bad Request\r\n",
            HttpAnswer::TooSlow => b"HTTP/1.1 408 Request Timeout\r\n",
            HttpAnswer::TooLong => b"HTTP/1.1 431 Request Header Fields Too Large\r\n",
            HttpAnswer::NoMemory | HttpAnswer::CannotStop =>
                b"HTTP/1.1 503 Service Unavailable\r\n",
        }
    }

    /// Returns the type of its body.
    fn content_type(self) -> &'static [u8]
        ensures { result.now ≡ type_of self }
    {
        match self {
            HttpAnswer::Index => b"Content-Type: text/html; charset=utf-8\r\n",
            HttpAnswer::Metrics => b"Content-Type: text/plain; version=0.0.4; charset=utf-8\r\n",
            _ => b"Content-Type: text/plain; charset=utf-8\r\n",
        }
    }

    /// Returns the methods that it names, if another one was used.
    fn methods(self) -> &'static [u8]
        ensures { result.now ≡ methods_of self }
    {
        match self {
            HttpAnswer::NotAllowed => b"Allow: GET, HEAD\r\n",
            HttpAnswer::NotPosted => b"Allow: POST\r\n",
            _ => b"",
        }
    }

    /// Returns its body. That of `Metrics` is the page.
    fn body<'a>(self, page: &'a [u8]) -> &'a [u8]
        ensures { result.now ≡ body_of self page.now }
    {
        match self {
            HttpAnswer::Index => {
                b"<!DOCTYPE html>\n<title>mcserver</title>\n<p><a href=\"/metrics\">/metrics</a> has the numbers.\n<p><a href=\"/healthz\">/healthz</a> returns 200 while the server runs.\n"
            }
            HttpAnswer::Metrics => page,
            HttpAnswer::Healthy => b"ok\n",
            HttpAnswer::NotFound => b"not found: there are /, /metrics and /healthz\n",
            HttpAnswer::Stopping => b"stopping\n",
            HttpAnswer::Forbidden => {
                b"forbidden: only a client of this machine's loopback may end the server, and no page\n"
            }
            HttpAnswer::NotPosted => b"method not allowed: POST ends the server\n",
            HttpAnswer::NotAllowed => b"method not allowed: GET or HEAD\n",
            HttpAnswer::Bad => b"bad request: it isn't HTTP/1.1, or has more than 64 fields\n",
            HttpAnswer::TooSlow => b"request timeout: it wasn't complete after 2 seconds\n",
            HttpAnswer::TooLong => b"request too long: at most 8192 bytes\n",
            HttpAnswer::CannotStop => b"the server can't be asked to end\n",
            HttpAnswer::NoMemory => b"no memory for the page\n",
        }
    }

    /// Returns whether the client may have sent more than was read.
    pub fn may_leave_input(self) -> bool {
        match self {
            HttpAnswer::Index | HttpAnswer::Metrics | HttpAnswer::Healthy | HttpAnswer::NoMemory =>
                false,
            _ => true,
        }
    }
}

/// Returns the text of a reply, after which the connection is closed. `page` is the page of
/// metrics, and isn't used for another answer.
///
/// The only error is a refused allocation.
pub fn response(alloc: Global, reply: HttpReply, page: &[u8]) -> Result<Vec<u8>, AllocError>
    ensures { IfOk result (λ text. text.items ≡ response_text reply page.now) }
{
    let HttpReply { answer, is_head } = reply;
    let body = answer.body(page);
    let mut buffer = Buffer::new();
    let mut text = Vec::from_slice(alloc, answer.status_line())?;
    text.extend_from_slice(answer.content_type())?;
    text.extend_from_slice(answer.methods())?;
    text.extend_from_slice(b"Connection: close\r\nContent-Length: ")?;
    text.extend_from_slice(buffer.format(body.len()).as_bytes())?;
    text.extend_from_slice(b"\r\n\r\n")?;
    text.extend_from_slice(sent_of(is_head, body))?;
    Ok(text)
}

/// Returns what is sent of a body.
fn sent_of(without: bool, body: &[u8]) -> &[u8]
    ensures { result.now ≡ sent_of without body.now }
{
    if without { b"" } else { body }
}
