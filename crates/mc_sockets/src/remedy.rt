//! The remedy for each error of accept(2).
ghost use Rattle.std.specs.Prelude.{◌≡◌};
ghost use Rattle.mc_sockets.specs.Remedies.{remedy_of};

use std::io;

/// The remedy for an error of accept.
#[derive(Clone, Copy)]
pub enum Remedy {
    /// The call is made again. The error is of one connection, of the network or of the moment.
    Retry,
    /// The spare descriptor is freed for the connection that waits.
    FreeSpare,
    /// The call is made again after a pause, and a warning reports that memory was refused.
    AwaitMemory,
    /// The listener failed, and no more connections are accepted.
    End,
}

/// Errors of Linux.
const EBADF: u32 = 9;

const ENOMEM: u32 = 12;

const EINVAL: u32 = 22;

const ENFILE: u32 = 23;

const EMFILE: u32 = 24;

const ENOTSOCK: u32 = 88;

const ENOBUFS: u32 = 105;

/// Returns the remedy for an error of accept, by the system's number.
pub fn remedy_of(number: u32) -> Remedy
    ensures { result ≡ remedy_of number }
{
    match number {
        EBADF | EINVAL | ENOTSOCK => Remedy::End,
        ENFILE | EMFILE => Remedy::FreeSpare,
        ENOMEM | ENOBUFS => Remedy::AwaitMemory,
        _ => Remedy::Retry,
    }
}

/// Returns the remedy for an error of accept. One that the system didn't give is tried again.
pub fn remedy_for(error: &io::Error) -> Remedy {
    match error.raw_os_error() {
        Some(number) => remedy_of(number.unsigned_abs()),
        None => Remedy::Retry,
    }
}
