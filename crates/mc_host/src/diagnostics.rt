//! Standard error, whose lines have levels where it is the journal of systemd.
//!
//! systemd names the journal's stream in `JOURNAL_STREAM`, by its device and its file number. A
//! service whose standard error is a file keeps that variable, so the file itself is compared. A
//! terminal and a file get lines without levels.
ghost use Rattle.std.specs.Prelude.{◌≡◌};
ghost use Rattle.mc_host.specs.Levels.{prefix_of};

use std::alloc::AllocGlobal;
use std::env::{self, Env};
use std::fs::{self, Files};
use std::io::Stderr;
use std::os::unix::fs::MetadataExt;

/// The level of a line.
#[derive(Clone, Copy)]
pub enum Level {
    /// The program ends for it.
    Error,
    /// The operator may have to change something.
    Warning,
    Info,
}

/// Standard error, and whether its lines begin with their level.
#[derive(Clone, Copy, Drop)]
pub struct Diagnostics {
    pub stderr: Stderr,
    /// Each line begins with `<3>` for an error, `<4>` for a warning, `<6>` for other lines.
    pub has_levels: bool,
}

/// The variable by which systemd names the journal's stream: its device and its file number.
const JOURNAL: &str = "JOURNAL_STREAM";

/// The file that is this process's standard error on Linux.
const STANDARD_ERROR: &str = "/proc/self/fd/2";

impl Diagnostics {
    /// Returns standard error, whose lines have levels if it is the journal of systemd.
    ///
    /// They have none if the system doesn't report it, or if memory is refused.
    pub fn new<R: Env + Files + AllocGlobal>(rt: &R, stderr: Stderr) -> Diagnostics {
        Diagnostics {
            stderr,
            has_levels: is_journal(rt).unwrap_or(false),
        }
    }

    /// Returns what a line of this level begins with; nothing if lines have no levels.
    pub fn prefix(self, level: Level) -> &'static str
        ensures { result.now ≡ prefix_of self.has_levels level }
    {
        match level {
            Level::Error if self.has_levels => "<3>",
            Level::Warning if self.has_levels => "<4>",
            Level::Info if self.has_levels => "<6>",
            _ => "",
        }
    }
}

/// Returns whether standard error is the journal of systemd, or `None` if that isn't known.
fn is_journal<R: Env + Files + AllocGlobal>(rt: &R) -> Option<bool> {
    let stream = env::var(rt, JOURNAL).ok()?;
    let (device, number) = stream.as_str().split_once(':')?;
    let (device, number) = (device.parse::<u64>().ok()?, number.parse::<u64>().ok()?);
    let file = fs::metadata(rt, STANDARD_ERROR).ok()?;
    Some(file.dev() == device && file.ino() == number)
}
