//! Options of memcached that this program doesn't support.
//!
//! Each is known by name and refused with its alternative: ignoring `-S`, `-Z` or `-u` silently
//! would leave the operator with less than was requested.

use clap::{Arg, ArgAction, ArgMatches, Command};
use std::alloc::{AllocError, Global};

/// An option of memcached that isn't supported.
pub struct Unserved {
    pub short: char,
    /// Its long name, or one of this program's own if memcached has none.
    pub long: &'static str,
    /// Whether a word follows it.
    pub takes_value: bool,
    /// The alternative.
    pub instead: &'static str,
}

/// The unsupported options.
pub const UNSERVED: [Unserved; 15] = [
    Unserved {
        short: 'u',
        long: "user",
        takes_value: true,
        instead: "start it as that user; the service of systemd has a user of its own",
    },
    Unserved {
        short: 'd',
        long: "daemon",
        takes_value: false,
        instead: "it stays in the foreground; let systemd start it, or 'setsid mcserver &'",
    },
    Unserved {
        short: 'P',
        long: "pidfile",
        takes_value: true,
        instead: "let what starts it write its number down, as 'echo $!' does",
    },
    Unserved {
        short: 's',
        long: "unix-socket",
        takes_value: true,
        instead: "it listens at a TCP port; '-l 127.0.0.1' keeps others out",
    },
    Unserved {
        short: 'a',
        long: "unix-mask",
        takes_value: true,
        instead: "there is no UNIX socket; leave it out",
    },
    Unserved {
        short: 'S',
        long: "enable-sasl",
        takes_value: false,
        instead: "there are no passwords; listen at 127.0.0.1, or behind a tunnel",
    },
    Unserved {
        short: 'Y',
        long: "auth-file",
        takes_value: true,
        instead: "there are no passwords; listen at 127.0.0.1, or behind a tunnel",
    },
    Unserved {
        short: 'Z',
        long: "enable-ssl",
        takes_value: false,
        instead: "there is no encryption; put a tunnel before it, as stunnel is one",
    },
    Unserved {
        short: 'k',
        long: "lock-memory",
        takes_value: false,
        instead: "let the machine have no swap, or 'MemorySwapMax=0' in the service",
    },
    Unserved {
        short: 'r',
        long: "enable-coredumps",
        takes_value: false,
        instead: "'ulimit -c', or 'LimitCORE=' in the service, allows core files",
    },
    Unserved {
        short: 'F',
        long: "disable-flush-all",
        takes_value: false,
        instead: "flush_all is always served; keep out who may not call it",
    },
    Unserved {
        short: 'A',
        long: "enable-shutdown",
        takes_value: false,
        instead: "start it with '--metrics PORT --allow-quit', and end it by 'mcserver --quit PORT'",
    },
    Unserved {
        short: 'D',
        long: "prefix-delimiter",
        takes_value: true,
        instead: "nothing is counted by prefixes; leave it out",
    },
    Unserved {
        short: 'e',
        long: "memory-file",
        takes_value: true,
        instead: "nothing is kept over a restart; leave it out",
    },
    Unserved {
        short: 'i',
        long: "license",
        takes_value: false,
        instead: "the file LICENSE has it",
    },
];

impl Unserved {
    /// Returns whether it is on the command line.
    pub fn is_in(&self, matches: &ArgMatches<'_>) -> bool {
        if self.takes_value {
            matches.contains_id(self.long)
        } else {
            matches.get_flag(self.long)
        }
    }
}

/// Adds the unsupported options, hidden from the help. Each is refused with its alternative.
pub fn with_unserved<'a>(
    alloc: Global,
    command: Command<'a>,
    unserved: &[Unserved],
) -> Result<Command<'a>, AllocError> {
    let mut command = command;
    for option in unserved {
        command = command.arg(hidden_argument(alloc, option))?;
    }
    Ok(command)
}

/// Returns the argument of an option that is hidden from the help.
fn hidden_argument<'a>(alloc: Global, option: &Unserved) -> Arg<'a> {
    let action = if option.takes_value {
        ArgAction::Set
    } else {
        ArgAction::SetTrue
    };
    Arg::new(alloc, option.long)
        .short(option.short)
        .long(option.long)
        .action(action)
        .hide(true)
}
