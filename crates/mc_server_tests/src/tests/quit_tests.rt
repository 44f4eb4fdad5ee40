//! The request by which a server is asked to end, over streams in memory.

use mc_host::{QuitFaultKind, ask_to_end};
use mc_testing::{Drip, Sip};
use std::alloc::Global;
use std::io::ErrorKind;
use std::test::Fail;

/// What is written, by RFC 9112: a request without a body, on a connection for it alone.
const REQUEST: &[u8] =
    b"POST /quit HTTP/1.1\r\nHost: localhost\r\nConnection: close\r\nContent-Length: 0\r\n\r\n";

/// Answers, and the text of what they mean; nothing if they accept.
const ANSWERS: [(&[u8], &str); 9] = [
    (b"HTTP/1.1 200 OK\r\nContent-Length: 0\r\n\r\n", ""),
    (b"HTTP/1.1 200 OK\r\n", ""),
    (b"HTTP/1.1 200 OK\r", "no answer came within 5 seconds"),
    (b"", "no answer came within 5 seconds"),
    (
        b"HTTP/1.1 404 Not Found\r\n\r\n",
        "the server has no --allow-quit",
    ),
    (
        b"HTTP/1.1 403 Forbidden\r\n\r\n",
        "the server ends only for its own machine",
    ),
    (
        b"HTTP/1.1 503 Service Unavailable\r\n\r\n",
        "the server doesn't accept it",
    ),
    (b"HTTP/1.1 200 Ok\r\n\r\n", "the server doesn't accept it"),
    (
        b"CLIENT_ERROR line too long\r\n",
        "the server doesn't accept it",
    ),
];

/// Returns the text of an outcome; nothing if the server accepted.
fn text_of(outcome: Result<(), QuitFaultKind>) -> &'static str {
    match outcome {
        Ok(()) => "",
        Err(why) => why.reason(),
    }
}

/// Asks over streams of at most `piece` bytes a call. Returns the outcome, and what was written.
fn asked(alloc: Global, answer: &[u8], piece: usize) -> (&'static str, Vec<u8>) {
    let mut reader = Drip::new(answer, piece);
    let mut writer = Sip::new(alloc, piece);
    let outcome = ask_to_end(&mut reader, &mut writer);
    (text_of(outcome), writer.into_taken())
}

#[test]
fn the_first_line_decides(rt: HostRuntime) -> Result<(), Fail> {
    for (answer, wanted) in ANSWERS {
        for piece in [1, 16, 17, 1000] {
            let (text, written) = asked(rt.alloc(), answer, piece);
            assert!(rt; text == wanted);
            assert!(rt; written.as_slice() == REQUEST);
        }
    }
    Ok(())
}

#[test]
fn a_request_that_is_cut_reaches_nobody(rt: HostRuntime) -> Result<(), Fail> {
    for calls in 0..REQUEST.len() {
        let mut reader = Drip::new(b"HTTP/1.1 200 OK\r\n", 100);
        let mut writer = Sip::failing(rt.alloc(), 0, calls, ErrorKind::BrokenPipe)?;
        let outcome = ask_to_end(&mut reader, &mut writer);
        assert!(rt; text_of(outcome) == "nothing answers there");
        assert!(rt; reader.rest().len() == 17);
    }
    Ok(())
}
