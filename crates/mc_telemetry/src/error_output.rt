//! Standard error, to which no line is written that would have to wait for its reader.

use mio::unix::SourceFd;
use mio::{Events, Interest, Poll, Token};
use std::alloc::{AllocError, Global};
use std::io::Stderr;
use std::net::Net;
use std::os::fd::AsRawFd;
use std::time::Duration;

/// How long one look waits for room, in milliseconds.
const REST: u64 = 500;

/// Standard error, and a poll that reports whether it has room for a line.
#[derive(Drop)]
pub struct ErrorOutput {
    stderr: Stderr,
    /// None if the system gives no poll: each write may wait then.
    poll: Option<Poll>,
    events: Events,
}

impl ErrorOutput {
    /// Makes an outlet. The one error is a refused allocation.
    pub fn new<R: Net>(rt: &R, alloc: Global, stderr: Stderr) -> Result<ErrorOutput, AllocError> {
        let Ok(events) = Events::with_capacity(alloc, 1) else {
            return Err(AllocError);
        };
        Ok(ErrorOutput {
            stderr,
            poll: Poll::new(rt).ok(),
            events,
        })
    }

    /// Returns whether a line can be written without waiting, for which it waits half a second at
    /// most. A file always takes one.
    pub fn is_ready(&mut self) -> bool {
        let Some(poll) = &mut self.poll else {
            return true;
        };
        let descriptor = self.stderr.as_raw_fd();
        let mut source = SourceFd(&descriptor);
        let registered = poll
            .registry()
            .register(&mut source, Token(0), Interest::WRITABLE);
        if registered.is_err() {
            return true;
        }
        let rest = Some(Duration::from_millis(REST));
        let polled = poll.poll(&mut self.events, rest);
        let _ = poll.registry().deregister(&mut source);
        polled.is_err() || !self.events.is_empty()
    }
}
