//! Asks a running server to end, by a request to its port of metrics.
ghost use Rattle.std.specs.Prelude.{◌≡◌, ◌≢◌, OnOk, OnErr, IfErr};
ghost use Rattle.std.specs.Io.KnownBytes.{Appends, Consumes};
ghost use Rattle.mc_host.specs.Quits.{quit_request, accepting_line, end_of_asking, EndsAsking, RefusesBy};

use crate::end::{End, QuitFault, QuitFaultKind};
use mc_options::ListenAddress;
use std::io::{self, ErrorKind, Read, Write};
use std::net::{Net, OpenStream, SocketAddr, TcpStream};
use std::time::{Clock, Duration, Instant};

/// The request by which a server is asked to end.
const REQUEST: &[u8] =
    b"POST /quit HTTP/1.1\r\nHost: localhost\r\nConnection: close\r\nContent-Length: 0\r\n\r\n";

/// The length in bytes of the first line of the answer of a server that ends.
const LINE: usize = 17;

/// The longest wait for a connection and for the answer, in seconds.
const LIMIT: u64 = 5;

/// Asks the server with its port of metrics at this endpoint to end. Returns how the program ends.
///
/// It waits at most 5 seconds for the answer. The program's status is 0 if the server accepted.
pub fn ask_server<R: Net + Clock>(rt: &R, endpoint: ListenAddress) -> End
    ensures { EndsAsking endpoint result }
{
    let place = SocketAddr::from((endpoint.address, endpoint.port));
    end_of_asking(endpoint, ask_at(rt, place))
}

/// Returns how the program ends if the server at this endpoint answered so.
fn end_of_asking(endpoint: ListenAddress, answer: Result<(), QuitFaultKind>) -> End
    ensures { result ≡ end_of_asking endpoint answer }
{
    match answer {
        Ok(()) => End::Accepted,
        Err(why) => End::Denied(QuitFault { endpoint, why }),
    }
}

/// Asks the server at this address to end.
fn ask_at<R: Net + Clock>(rt: &R, place: SocketAddr) -> Result<(), QuitFaultKind> {
    let limit = Duration::from_secs(LIMIT);
    let Ok(since) = Instant::now(rt) else {
        return Err(QuitFaultKind::Silent);
    };
    let Ok(stream) = TcpStream::connect_timeout(rt, &place, limit) else {
        return Err(QuitFaultKind::Unreached);
    };
    let Ok(mut writer) = stream.try_clone() else {
        return Err(QuitFaultKind::Unreached);
    };
    let _ = writer.set_write_timeout(Some(limit));
    let mut reader = Patient { rt, stream, since };
    ask_to_end(&mut reader, &mut writer)
}

/// Writes the request, and reads the first line of the answer. Returns whether it accepts.
///
/// An answer whose first 17 bytes are another line refuses.
pub fn ask_to_end<R: Read, W: Write>(reader: &mut R, writer: &mut W) -> Result<(), QuitFaultKind>
    ensures sends { OnOk result
        (Appends (W.contents writer.old) (W.contents writer.new) quit_request) }
    ensures accepts { OnOk result
        (Consumes (R.remaining reader.old) (R.remaining reader.new) accepting_line) }
    ensures refuses { IfErr result
        (RefusesBy (Consumes (R.remaining reader.old) (R.remaining reader.new))) }
{
    if writer.write_all(REQUEST).is_err() {
        return Err(QuitFaultKind::Unreached);
    }
    let mut line = [0u8; LINE];
    if reader.read_exact(&mut line).is_err() {
        return Err(QuitFaultKind::Silent);
    }
    judge(&line)
}

/// Returns whether the first line of an answer accepts, and why not.
fn judge(line: &[u8]) -> Result<(), QuitFaultKind>
    ensures accepts { OnOk result (line.now ≡ accepting_line) }
    ensures refuses { OnErr result (line.now ≢ accepting_line) }
{
    if line == b"HTTP/1.1 200 OK\r\n".as_slice() {
        return Ok(());
    }
    if line.starts_with(b"HTTP/1.1 404") {
        return Err(QuitFaultKind::Unoffered);
    }
    if line.starts_with(b"HTTP/1.1 403") {
        return Err(QuitFaultKind::Forbidden);
    }
    Err(QuitFaultKind::Refused)
}

/// A stream that is read for at most 5 seconds from a moment on.
#[derive(Drop)]
struct Patient<'a, R: Net + Clock> {
    rt: &'a R,
    stream: R::Stream,
    since: Instant,
}

impl<R: Net + Clock> Read for Patient<'_, R> {
    fn read(&mut self, buf: &mut [u8]) -> io::Result<usize> {
        let left = Duration::from_secs(LIMIT).saturating_sub(self.since.elapsed(self.rt)?);
        if left == Duration::ZERO {
            return Err(io::Error::from(ErrorKind::TimedOut));
        }
        self.stream.set_read_timeout(Some(left))?;
        self.stream.read(buf)
    }
}
