//! Requests over HTTP, and their replies.
//!
//! `httparse` parses a request and its contract is a grammar, so the reply is a function of whether
//! the server may be ended, of the peer's address, and of the request's head. What a refused client
//! still sends is read before its connection is closed: otherwise the system would discard the
//! answer.
ghost use Rattle.std.specs.Prelude.{◌≡◌, ◌⊎◌, ◌↔◌, ◌≤◌, ℕ, List, length, IfSome, Some, None, codes, IsTrue};
ghost use Rattle.httparse.specs.Grammar.{RequestHead, ReadsRequest, HasNoRequest};
ghost use Rattle.httparse.specs.Spans.{RequestOverflows};
ghost use Rattle.mc_metrics.specs.Scrapes.{Ends, IsAskedToEnd, MayEnd, answer_at};
ghost use Rattle.mc_metrics.specs.Scrapes.{is_head, is_post, most_fields, page_at};
ghost use Rattle.mc_metrics.specs.Scrapes.{path_of, quit_answer, reply_to, whole};

use crate::access::{is_trusted, up_to};
use crate::answer::{HttpAnswer, HttpReply};
use httparse::Status;
use httparse::spans::{EMPTY_HEADER_SPAN, parse_request};
use std::net::IpAddr;

/// The most fields of a request.
const MOST_FIELDS: usize = 64;

/// Returns the reply to the request at the front of `bytes`, or `None` if it isn't complete.
///
/// `may_quit` is whether the server may be ended by `POST /quit`, and `peer` the client's address.
/// Bytes that can't begin a request, and a request with more than 64 fields, get `Bad`.
pub fn read_request(may_quit: bool, peer: IpAddr, bytes: &[u8]) -> Option<HttpReply>
    ensures found { (head : RequestHead) (rest : List ℕ) → ReadsRequest bytes.now head rest
        → length head.fields ≤ most_fields → result ≡ Some (reply_to may_quit peer head) }
    ensures stops { (head : RequestHead) (rest : List ℕ) → ReadsRequest bytes.now head rest
        → length head.fields ≤ most_fields
        → (result ≡ Some (whole HttpAnswer.Stopping)) ↔ MayEnd may_quit peer head }
    ensures granted { IfSome result (λ reply. reply.answer ≡ HttpAnswer.Stopping
        → IsAskedToEnd may_quit peer bytes.now) }
    ensures known { IfSome result (λ reply. (reply ≡ whole HttpAnswer.Bad)
        ⊎ ((head : RequestHead) × (rest : List ℕ) × ReadsRequest bytes.now head rest
        × (reply ≡ reply_to may_quit peer head))) }
    ensures bad { result ≡ Some (whole HttpAnswer.Bad) → RequestOverflows most_fields bytes.now }
    ensures unfinished { result ≡ None → HasNoRequest bytes.now }
{
    let mut fields = [EMPTY_HEADER_SPAN; MOST_FIELDS];
    match parse_request(bytes, &mut fields) {
        Ok(Status::Complete(head)) => {
            let (fields, _) = fields.split_at(head.headers);
            let trusted = is_trusted(peer, bytes, fields);
            Some(reply_to(
                may_quit,
                trusted,
                head.method.of(bytes),
                head.path.of(bytes),
            ))
        }
        Ok(Status::Partial) => None,
        Err(_) => Some(HttpReply::whole(HttpAnswer::Bad)),
    }
}

/// Returns the reply to a request with this method and target.
fn reply_to(may_quit: bool, trusted: bool, method: &[u8], target: &[u8]) -> HttpReply
    ensures answer { result.answer ≡ answer_at may_quit trusted method.now (path_of target.now) }
    ensures head { result.is_head ≡ is_head method.now }
    ensures granted { result.answer ≡ HttpAnswer.Stopping
        → Ends may_quit trusted method.now target.now }
    ensures stops { Ends may_quit trusted method.now target.now → result ≡ whole HttpAnswer.Stopping }
{
    HttpReply {
        answer: answer_at(may_quit, trusted, method, up_to(b'?', target)),
        is_head: is_head(method),
    }
}

/// Returns the answer to a request with this method for a path.
fn answer_at(may_quit: bool, trusted: bool, method: &[u8], path: &[u8]) -> HttpAnswer
    ensures value { result ≡ answer_at may_quit trusted method.now path.now }
    ensures granted { result ≡ HttpAnswer.Stopping → (path.now ≡ codes "/quit") × IsTrue may_quit
        × (method.now ≡ codes "POST") × IsTrue trusted }
{
    if path == b"/quit".as_slice() {
        quit_answer(may_quit, trusted, method)
    } else if method == b"GET".as_slice() || is_head(method) {
        page_at(path)
    } else {
        HttpAnswer::NotAllowed
    }
}

/// Returns the answer to a request with this method for the path by which the server ends.
fn quit_answer(may_quit: bool, trusted: bool, method: &[u8]) -> HttpAnswer
    ensures value { result ≡ quit_answer may_quit trusted method.now }
    ensures granted { result ≡ HttpAnswer.Stopping → IsTrue may_quit × (method.now ≡ codes "POST")
        × IsTrue trusted }
{
    if !may_quit {
        HttpAnswer::NotFound
    } else if !is_post(method) {
        HttpAnswer::NotPosted
    } else if trusted {
        HttpAnswer::Stopping
    } else {
        HttpAnswer::Forbidden
    }
}

/// Returns whether a method is the one by which the server ends.
fn is_post(method: &[u8]) -> bool
    ensures value { result ≡ is_post method.now }
    ensures is { IsTrue result ↔ (method.now ≡ codes "POST") }
{
    method == b"POST".as_slice()
}

/// Returns whether a method asks for the head of the answer alone.
fn is_head(method: &[u8]) -> bool
    ensures { result ≡ is_head method.now }
{
    method == b"HEAD".as_slice()
}

/// Returns the answer to a `GET` of a path.
fn page_at(path: &[u8]) -> HttpAnswer
    ensures value { result ≡ page_at path.now }
    ensures goes_on { result ≡ HttpAnswer.Stopping → ⊥ }
{
    if path == b"/metrics".as_slice() {
        HttpAnswer::Metrics
    } else if path == b"/healthz".as_slice() {
        HttpAnswer::Healthy
    } else if path == b"/".as_slice() {
        HttpAnswer::Index
    } else {
        HttpAnswer::NotFound
    }
}
