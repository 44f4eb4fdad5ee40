//! A request over HTTP and its answer, on a connection that doesn't block.
//!
//! Contracts state that a request ends the server only if `read_request` grants it to this peer for
//! the bytes that came.
ghost use Rattle.std.specs.Prelude.{◌≡◌, IfOk, IfSome};
ghost use Rattle.mc_metrics.specs.Scrapes.{IsAskedToEnd};
ghost use Rattle.mc_telemetry.specs.ScrapeConnections.{come, EndsRightly, EndsNothing};

use mc_metrics::{HttpAnswer, HttpReply, NO_MEMORY, read_request};
use mio::net::TcpStream;
use std::alloc::{AllocError, Global};
use std::io::{self, ErrorKind, Read, Write};
use std::mem;
use std::net::{IpAddr, Shutdown};
use std::time::{Clock, Duration, Instant};

/// The greatest size of a request, in bytes.
const LONGEST: usize = 8192;

/// How long a request may take until it is whole, and then how long its answer may, in
/// milliseconds.
const LIMIT: u64 = 2000;

/// How often one call reads or writes at most.
const CALLS: usize = 64;

/// What an exchange does next.
#[derive(Clone, Copy)]
enum Stage {
    /// It reads the request.
    Reading,
    /// It sends the answer.
    Sending,
    /// It reads what the client sends behind its request, and drops it.
    Dropping,
}

/// What is to be done about an exchange.
#[derive(Clone, Copy)]
pub enum Due {
    /// Nothing until its client sends or takes bytes.
    Nothing,
    /// It is to be asked to go on.
    More,
    /// Its request is to be answered.
    Answer(HttpReply),
    /// Its connection is to be closed.
    Close,
}

/// A request over HTTP and its answer, on a connection that doesn't block.
#[derive(Drop)]
pub struct ScrapeConnection {
    stream: TcpStream,
    /// Whether peers of this machine may end the program.
    may_quit: bool,
    peer: IpAddr,
    stage: Stage,
    /// When this stage began, if the clock can be read.
    since: Option<Instant>,
    /// The request; `came` bytes of it have come.
    request: Vec<u8>,
    came: usize,
    /// The answer; `sent` bytes of it were sent.
    answer: Vec<u8>,
    sent: usize,
    /// Whether the client may have sent more than was read.
    may_leave_input: bool,
}

impl ScrapeConnection {
    /// Makes an exchange with a peer. The one error is a refused allocation.
    pub fn new<R: Clock>(
        rt: &R,
        alloc: Global,
        stream: TcpStream,
        may_quit: bool,
        peer: IpAddr,
    ) -> Result<ScrapeConnection, AllocError>
        ensures { IfOk result (λ exchange. (exchange.may_quit ≡ may_quit)
            × (exchange.peer ≡ peer)) }
    {
        Ok(ScrapeConnection {
            stream,
            may_quit,
            peer,
            stage: Stage::Reading,
            since: Instant::now(rt).ok(),
            request: vec![in alloc; 0u8; LONGEST]?,
            came: 0,
            answer: Vec::new(alloc),
            sent: 0,
            may_leave_input: false,
        })
    }

    /// Reads or writes as far as that goes without waiting, and returns what is due.
    pub fn go_on<R: Clock>(&mut self, rt: &R) -> Due
        ensures ends { EndsRightly self.new.may_quit self.new.peer
            (come self.new.came self.new.request.items) result }
        ensures same { (self.new.may_quit ≡ self.old.may_quit) × (self.new.peer ≡ self.old.peer) }
    {
        match self.stage {
            Stage::Reading => self.read_on(rt),
            Stage::Sending => self.send_on(rt),
            Stage::Dropping => self.drop_on(rt),
        }
    }

    /// Takes the text of its answer, which is sent from then on.
    pub fn answer<R: Clock>(&mut self, rt: &R, text: Vec<u8>, may_leave_input: bool)
        ensures same { (self.new.may_quit ≡ self.old.may_quit) × (self.new.peer ≡ self.old.peer) }
    {
        self.answer = text;
        self.may_leave_input = may_leave_input;
        self.enter(rt, Stage::Sending);
    }

    /// Answers that there is no memory for the answer. It takes no memory: the text lies where the
    /// request did.
    pub fn answer_without_memory<R: Clock>(&mut self, rt: &R)
        ensures same { (self.new.may_quit ≡ self.old.may_quit) × (self.new.peer ≡ self.old.peer) }
    {
        mem::swap(&mut self.request, &mut self.answer);
        self.answer.clear();
        let _ = self.answer.extend_from_slice(NO_MEMORY);
        self.may_leave_input = false;
        self.enter(rt, Stage::Sending);
    }

    /// Begins a stage.
    fn enter<R: Clock>(&mut self, rt: &R, stage: Stage)
        ensures same { (self.new.may_quit ≡ self.old.may_quit) × (self.new.peer ≡ self.old.peer) }
    {
        self.stage = stage;
        self.since = Instant::now(rt).ok();
    }

    /// Reads the request, and returns its answer if it is whole.
    fn read_on<R: Clock>(&mut self, rt: &R) -> Due
        ensures ends { EndsRightly self.new.may_quit self.new.peer
            (come self.new.came self.new.request.items) result }
        ensures same { (self.new.may_quit ≡ self.old.may_quit) × (self.new.peer ≡ self.old.peer) }
    {
        for _call in 0..CALLS {
            match self.read_piece() {
                Ok(0) if self.came == 0 => return Due::Close,
                Ok(0) => return Due::Answer(HttpReply::whole(HttpAnswer::Bad)),
                Ok(count) => self.came = self.came.saturating_add(count),
                Err(error) if error.kind() == ErrorKind::Interrupted => {}
                Err(error) => return self.awaited(rt, &error, true),
            }
            if let Some(reply) = self.whole_request() {
                return Due::Answer(reply);
            }
        }
        Due::More
    }

    /// Reads behind what has come of the request.
    fn read_piece(&mut self) -> io::Result<usize>
        ensures same { (self.new.may_quit ≡ self.old.may_quit) × (self.new.peer ≡ self.old.peer) }
    {
        let at = self.came.min(self.request.len());
        let (_, room) = self.request.as_mut_slice().split_at_mut(at);
        self.stream.read(room)
    }

    /// Returns how the request is answered, if it is whole or can't be.
    fn whole_request(&self) -> Option<HttpReply>
        ensures { IfSome result (λ reply. reply.answer ≡ HttpAnswer.Stopping
            → IsAskedToEnd self.now.may_quit self.now.peer
            (come self.now.came self.now.request.items)) }
    {
        let (front, room) = self
            .request
            .as_slice()
            .split_at(self.came.min(self.request.len()));
        match read_request(self.may_quit, self.peer, front) {
            None if room.is_empty() => Some(HttpReply::whole(HttpAnswer::TooLong)),
            reply => reply,
        }
    }

    /// Sends the answer, and then ends the stream.
    fn send_on<R: Clock>(&mut self, rt: &R) -> Due
        ensures ends { EndsNothing result }
        ensures same { (self.new.may_quit ≡ self.old.may_quit) × (self.new.peer ≡ self.old.peer) }
    {
        for _call in 0..CALLS {
            let (_, rest) = self
                .answer
                .as_slice()
                .split_at(self.sent.min(self.answer.len()));
            if rest.is_empty() {
                return self.end_stream(rt);
            }
            match self.stream.write(rest) {
                Ok(0) => return Due::Close,
                Ok(count) => self.sent = self.sent.saturating_add(count),
                Err(error) if error.kind() == ErrorKind::Interrupted => {}
                Err(error) => return self.awaited(rt, &error, false),
            }
        }
        Due::More
    }

    /// Ends the stream. If the client may have sent more it is read first: the system would else
    /// drop the answer with it.
    fn end_stream<R: Clock>(&mut self, rt: &R) -> Due
        ensures ends { EndsNothing result }
        ensures same { (self.new.may_quit ≡ self.old.may_quit) × (self.new.peer ≡ self.old.peer) }
    {
        let _ = self.stream.shutdown(Shutdown::Write);
        if !self.may_leave_input {
            return Due::Close;
        }
        self.enter(rt, Stage::Dropping);
        Due::More
    }

    /// Reads what still comes, and drops it.
    fn drop_on<R: Clock>(&mut self, rt: &R) -> Due
        ensures ends { EndsNothing result }
        ensures same { (self.new.may_quit ≡ self.old.may_quit) × (self.new.peer ≡ self.old.peer) }
    {
        for _call in 0..CALLS {
            match self.stream.read(self.request.as_mut_slice()) {
                Ok(0) => return Due::Close,
                Ok(_) => {}
                Err(error) if error.kind() == ErrorKind::Interrupted => {}
                Err(error) => return self.awaited(rt, &error, false),
            }
        }
        if self.is_late(rt) {
            Due::Close
        } else {
            Due::More
        }
    }

    /// Returns what is due where a call failed: nothing if it would have to wait and the stage has
    /// time left, and else the end. A request that is late is answered so first.
    fn awaited<R: Clock>(&self, rt: &R, error: &io::Error, reads: bool) -> Due
        ensures { EndsNothing result }
    {
        if error.kind() != ErrorKind::WouldBlock {
            return Due::Close;
        }
        if !self.is_late(rt) {
            Due::Nothing
        } else if reads {
            Due::Answer(HttpReply::whole(HttpAnswer::TooSlow))
        } else {
            Due::Close
        }
    }

    /// Returns whether the stage takes longer than it may, or the clock can't be read.
    fn is_late<R: Clock>(&self, rt: &R) -> bool {
        let Some(since) = self.since else {
            return true;
        };
        match since.elapsed(rt) {
            Ok(time) => time >= Duration::from_millis(LIMIT),
            Err(_) => true,
        }
    }
}
