//! How the program ends: its status, and its text on standard error.
//!
//! An end that can't listen has the address and the obstacle, not a text, so contracts name both.

ghost use Rattle.std.specs.Prelude.{◌≡◌};
ghost use Rattle.mc_host.specs.Ends.{IsUnnamed, status_of, text_of};

use clap::error::ErrorKind;
use mc_options::ListenAddress;
use mc_protocol::ServeFault;
use std::alloc::AllocError;
use std::io;

/// How the program ends.
#[derive(Drop)]
pub enum End {
    /// It served: one session to its end or a fault, or connections until the listener failed.
    ///
    /// A failed listener is a read fault.
    Served(Result<(), ServeFault>),
    /// It can't listen.
    CannotListen(ListenFault),
    /// It was asked to end, and did.
    Stopped,
    /// The command line is bad, and its faults were printed.
    BadCommandLine,
    /// The number of shelves on the command line isn't a power of two.
    BadShelves,
    /// A word of the command line isn't text.
    NotText,
    /// Help or the version was printed.
    Shown,
    /// Help or the version couldn't be printed.
    NotShown,
    /// Memory was refused while the command line was read, or before the first connection.
    NoMemory,
    /// The system refused a thread.
    NoThread,
    /// The limit of the stack is below what the program needs.
    SmallStack,
    /// The server that was asked to end accepted.
    Accepted,
    /// The server that was asked to end didn't accept.
    Denied(QuitFault),
}

/// The endpoint at which it can't listen, and why.
#[derive(Clone, Copy, Drop)]
pub struct ListenFault {
    pub endpoint: ListenAddress,
    pub why: ListenFaultKind,
}

/// Why it can't listen.
#[derive(Clone, Copy, Drop)]
pub enum ListenFaultKind {
    /// Something listens there already.
    Taken,
    /// The port isn't allowed to this user.
    NotAllowed,
    /// The address isn't one of this machine.
    NotHere,
    /// The system has too few descriptors.
    NoDescriptor,
    /// Any other obstacle.
    Other,
}

/// The server that was asked to end and didn't accept, and why.
#[derive(Clone, Copy, Drop)]
pub struct QuitFault {
    /// Its port of metrics.
    pub endpoint: ListenAddress,
    pub why: QuitFaultKind,
}

/// Why a server doesn't end.
#[derive(Clone, Copy, Drop)]
pub enum QuitFaultKind {
    /// Nothing listens there, or nothing takes the request.
    Unreached,
    /// No answer came in time, or none that is whole.
    Silent,
    /// It has no such page.
    Unoffered,
    /// It ends for requests of its own machine only.
    Forbidden,
    /// It answered otherwise.
    Refused,
}

impl QuitFaultKind {
    ghost use Rattle.std.specs.Prelude.{◌≡◌};
    ghost use Rattle.mc_host.specs.Ends.{denial_of};

    /// Returns its text, which follows the address.
    pub fn reason(self) -> &'static str
        ensures { result.now ≡ denial_of self }
    {
        match self {
            QuitFaultKind::Unreached => "nothing answers there",
            QuitFaultKind::Silent => "no answer came within 5 seconds",
            QuitFaultKind::Unoffered => "the server has no --allow-quit",
            QuitFaultKind::Forbidden => "the server ends only for its own machine",
            QuitFaultKind::Refused => "the server doesn't accept it",
        }
    }
}

/// The system's errors for a missing descriptor: `ENFILE` and `EMFILE`.
const NO_DESCRIPTOR: [i32; 2] = [23, 24];

impl ListenFaultKind {
    ghost use Rattle.std.specs.Prelude.{◌≡◌, ◌≢◌};
    ghost use Rattle.std.specs.IoError.{error_kind};
    ghost use Rattle.std.specs.declared.io.ErrorKind.TheVariants as io_kind;
    ghost use Rattle.mc_host.specs.Ends.{reason_of, IsUnnamed};

    /// Returns the obstacle of a system error.
    pub fn of(error: &io::Error) -> ListenFaultKind
        ensures taken { error_kind error.now ≡ io_kind.AddrInUse → result ≡ ListenFaultKind.Taken }
        ensures not_allowed { error_kind error.now ≡ io_kind.PermissionDenied
            → result ≡ ListenFaultKind.NotAllowed }
        ensures not_here { error_kind error.now ≡ io_kind.AddrNotAvailable → result ≡ ListenFaultKind.NotHere }
        ensures others { error_kind error.now ≢ io_kind.AddrInUse
            → error_kind error.now ≢ io_kind.PermissionDenied
            → error_kind error.now ≢ io_kind.AddrNotAvailable → IsUnnamed result }
    {
        if error.kind() == io::ErrorKind::AddrInUse {
            return ListenFaultKind::Taken;
        }
        if error.kind() == io::ErrorKind::PermissionDenied {
            return ListenFaultKind::NotAllowed;
        }
        if error.kind() == io::ErrorKind::AddrNotAvailable {
            return ListenFaultKind::NotHere;
        }
        unnamed_obstacle(error)
    }

    /// Returns its text, which follows the address.
    pub fn reason(self) -> &'static str
        ensures { result.now ≡ reason_of self }
    {
        match self {
            ListenFaultKind::Taken => "something listens there already",
            ListenFaultKind::NotAllowed => "the port isn't allowed to this user",
            ListenFaultKind::NotHere => "the address isn't one of this machine",
            ListenFaultKind::NoDescriptor => "the system gives too few descriptors (ulimit -n)",
            ListenFaultKind::Other => "the system refuses it",
        }
    }
}

/// Returns `NoDescriptor` for a missing descriptor, and `Other` for any other error.
fn unnamed_obstacle(error: &io::Error) -> ListenFaultKind
    ensures { IsUnnamed result }
{
    match error.raw_os_error() {
        Some(number) if NO_DESCRIPTOR.contains(&number) => ListenFaultKind::NoDescriptor,
        _ => ListenFaultKind::Other,
    }
}

impl From<AllocError> for End {
    ghost use Rattle.std.specs.Prelude.{◌≡◌};
    ghost use Rattle.mc_host.specs.declared.end.End.TheVariants.{NoMemory};

    ghost from_gives = { λ _ end. end ≡ NoMemory };

    fn from(_refused: AllocError) -> End {
        End::NoMemory
    }
}

impl End {
    ghost use Rattle.std.specs.Prelude.{◌≡◌, ◌≢◌, ◌⊎◌, IsOk, IsErr};
    ghost use Rattle.std.specs.IoError.{error_kind};
    ghost use Rattle.std.specs.declared.io.ErrorKind.TheVariants as io_kind;
    ghost use Rattle.clap.specs.Words.{kind_of};
    ghost use Rattle.clap.specs.declared.error.kind.ErrorKind.TheVariants as kind;
    ghost use Rattle.mc_host.specs.Ends.{status_of, text_of, EndsUnboundAt};

    /// Returns the end if it can't listen at an endpoint, by the system's error.
    ///
    /// It is want of memory, or the endpoint and the obstacle.
    pub fn without(endpoint: ListenAddress, error: &io::Error) -> End
        ensures { EndsUnboundAt endpoint result }
    {
        if error.kind() == io::ErrorKind::OutOfMemory {
            return End::NoMemory;
        }
        End::CannotListen(ListenFault {
            endpoint,
            why: ListenFaultKind::of(error),
        })
    }

    /// Returns the end if the words of the command line couldn't be read.
    ///
    /// It is want of memory, or a word that isn't text.
    pub fn of_words(error: io::Error) -> End
        ensures memory { error_kind error ≡ io_kind.OutOfMemory → result ≡ End.NoMemory }
        ensures text { error_kind error ≢ io_kind.OutOfMemory → result ≡ End.NotText }
    {
        if error.kind() == io::ErrorKind::OutOfMemory {
            End::NoMemory
        } else {
            End::NotText
        }
    }

    /// Returns the end if `clap` returns an error, given whether its text could be printed.
    pub fn of_options(error: &clap::Error, printed: &io::Result<()>) -> End
        ensures memory { kind_of error.now ≡ kind.OutOfMemory → result ≡ End.NoMemory }
        ensures shown { (kind_of error.now ≡ kind.DisplayHelp)
            ⊎ (kind_of error.now ≡ kind.DisplayVersion) → IsOk printed.now → result ≡ End.Shown }
        ensures not_shown { (kind_of error.now ≡ kind.DisplayHelp)
            ⊎ (kind_of error.now ≡ kind.DisplayVersion) → IsErr printed.now → result ≡ End.NotShown }
        ensures mistake { kind_of error.now ≢ kind.OutOfMemory
            → kind_of error.now ≢ kind.DisplayHelp → kind_of error.now ≢ kind.DisplayVersion
            → result ≡ End.BadCommandLine }
    {
        if error.kind() == ErrorKind::OutOfMemory {
            return End::NoMemory;
        }
        if error.use_stderr() {
            return End::BadCommandLine;
        }
        match printed {
            Ok(()) => End::Shown,
            Err(_) => End::NotShown,
        }
    }

    /// Returns the program's status and its text on standard error, which may be empty.
    ///
    /// For an end that can't listen, and for a server that doesn't end, the address and the reason
    /// follow the text. It takes no memory.
    pub fn ending(&self) -> (u8, &'static str)
        ensures status { result.0 ≡ status_of self.now }
        ensures text { result.1.now ≡ text_of self.now }
    {
        match self {
            End::Served(answer) => ending(answer),
            End::Shown | End::Stopped | End::Accepted => (0, ""),
            End::CannotListen(_) => (1, "mcserver: cannot listen"),
            End::BadCommandLine => (2, ""),
            End::BadShelves => (2, "mcserver: shelves must be a power of two"),
            End::NotText => (2, "mcserver: a word of the command line isn't UTF-8"),
            End::NotShown => ending(&Err(ServeFault::Write)),
            End::NoMemory => ending(&Err(ServeFault::NoMemory)),
            End::NoThread => (1, "mcserver: cannot start a thread (ulimit -u, ulimit -v)"),
            End::SmallStack => (1, "mcserver: the stack limit is below 512 KiB (ulimit -s)"),
            End::Denied(_) => (1, "mcserver: --quit"),
        }
    }
}

/// Returns the program's status and its text for a served session.
///
/// They are 0 and nothing at its end, and 1 and the fault after a fault. It takes no memory.
pub fn ending(answer: &Result<(), ServeFault>) -> (u8, &'static str)
    ensures status { result.0 ≡ status_of (End.Served answer.now) }
    ensures text { result.1.now ≡ text_of (End.Served answer.now) }
{
    match answer {
        Ok(()) => (0, ""),
        Err(ServeFault::Read) => (1, "mcserver: read fault"),
        Err(ServeFault::Write) => (1, "mcserver: write fault"),
        Err(ServeFault::NoMemory) => (1, "mcserver: out of memory"),
    }
}
