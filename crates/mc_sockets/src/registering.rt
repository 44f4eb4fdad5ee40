//! For which events of a connection the poll is asked.
//!
//! A connection is registered once: for input, for room, and for urgent data. That is proved for
//! any poll. What a poll reports is unspecified (`links.rt`).
ghost use Rattle.std.specs.Prelude.{◌<◌, ◌-◌, ◌^◌};
ghost use Rattle.mc_sockets.specs.Registering.{AsksAll};

use crate::link_table::token_of;
use mio::net::TcpStream;
use mio::{Interest, Registry, Token};
use std::io;

/// A poll's register of connections.
pub(crate) trait Register {
    ghost use Rattle.std.specs.Prelude.{Result};
    ghost use Rattle.std.specs.declared.io.Error.{Error};
    ghost use Rattle.mio.specs.declared.token.Token.{Token as TokenValue};
    ghost use Rattle.mio.specs.declared.interest.Interest.{Interest as InterestValue};

    /// A connection's events were asked for under a token, and that was answered.
    ghost asked: { Self → TokenValue → InterestValue → Result (Unit {0}) Error → Type 0 };

    /// Asks for these events of a connection, which are reported under a token.
    fn ask(&self, stream: &mut TcpStream, token: Token, interests: Interest) -> io::Result<()>
        ensures { asked self.now token interests result };
}

/// The system's register shows nothing.
impl Register for Registry {
    ghost use Rattle.std.specs.Prelude.{⊤};

    ghost asked = { λ _ _ _ _. ⊤ };

    fn ask(&self, stream: &mut TcpStream, token: Token, interests: Interest) -> io::Result<()> {
        self.register(stream, token, interests)
    }
}

/// Registers the connection at a place for all its events. Their token is the place and 1 more.
pub(crate) fn register_at<G: Register>(
    register: &G,
    stream: &mut TcpStream,
    at: usize,
) -> io::Result<()>
    ensures { at < 2 ^ 64 - 1 → AsksAll G.asked register.now at result }
{
    let all = Interest::READABLE | Interest::WRITABLE | Interest::PRIORITY;
    register.ask(stream, Token(token_of(at)), all)
}
