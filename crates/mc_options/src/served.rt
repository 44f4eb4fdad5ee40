//! The options that this program supports.

use crate::options::{LONGEST_TIMEOUT, MOST_BUFFERS, MOST_CONNECTIONS, MOST_WORKERS};
use crate::value::ValueKind;
use clap::{Arg, ArgAction, ArgMatches, Command};
use mc_sizes::Settings;
use mc_time::Moment;
use std::alloc::{AllocError, Global};

/// An option that is accepted.
pub struct Served {
    pub short: Option<char>,
    /// Its long name, by which its value is read too.
    pub long: &'static str,
    pub takes: Operand,
    /// Its text in the help, with `{n}` at the end of each line of at most 48 columns.
    pub help: &'static str,
}

/// What follows an option.
pub enum Operand {
    /// Nothing: the option is there, or it isn't. It is an option for tests.
    NothingInTests,
    /// Nothing, and the named option must be there too.
    NothingBeside(&'static str),
    /// Nothing, and the option is counted.
    NothingCounted,
    /// Nothing: the option changes nothing.
    Nothing,
    /// A value.
    One(Value),
    /// A value of an option for tests.
    OneInTests(Value),
    /// Values with commas between them. A repeated option adds to them.
    Many(Value),
}

/// The value of an option.
#[derive(Clone, Copy)]
pub struct Value {
    /// Its name in the help.
    pub name: &'static str,
    pub kind: ValueKind,
    /// What is fit, behind a value that isn't.
    pub rule: &'static str,
}

impl Operand {
    /// Returns the value, if there is one.
    pub fn value(&self) -> Option<Value> {
        match self {
            Operand::One(value) | Operand::OneInTests(value) | Operand::Many(value) => Some(*value),
            _ => None,
        }
    }

    /// Returns whether values have commas between them.
    pub fn is_list(&self) -> bool {
        matches!(self, Operand::Many(_))
    }

    /// Returns whether the option is for tests.
    fn is_for_tests(&self) -> bool {
        matches!(self, Operand::NothingInTests | Operand::OneInTests(_))
    }
}

impl Served {
    /// Returns whether it is on the command line.
    pub fn is_in(&self, matches: &ArgMatches<'_>) -> bool {
        match self.takes.value() {
            Some(_) => matches.contains_id(self.long),
            None => matches.get_flag(self.long),
        }
    }
}

/// The heading of the options for tests.
const FOR_TESTS: &str = "For tests";

/// The supported options, in the order of the help.
pub const SERVED: [Served; 17] = [
    Served {
        short: Some('l'),
        long: "listen",
        takes: Operand::Many(Value {
            name: "ADDR",
            kind: ValueKind::Address,
            rule: "an IP address, alone or with a port, as in 10.0.0.5, ::1, 10.0.0.5:11211 \
and [::1]:11211; names aren't looked up",
        }),
        help: "Listen at these IP addresses, with commas{n}between them, each alone or with a port{n}\
[default: 127.0.0.1]",
    },
    Served {
        short: Some('p'),
        long: "port",
        takes: Operand::One(Value {
            name: "PORT",
            kind: ValueKind::Number(1, 65535),
            rule: "a TCP port, 1 to 65535",
        }),
        help: "Listen at this TCP port, 1 to 65535{n}[default: 11211]",
    },
    Served {
        short: Some('t'),
        long: "threads",
        takes: Operand::One(Value {
            name: "N",
            kind: ValueKind::Number(1, MOST_WORKERS as u64),
            rule: "a number of workers, 1 to 64",
        }),
        help: "Serve connections by N workers, 1 to 64{n}[default: 4]",
    },
    Served {
        short: Some('c'),
        long: "conn-limit",
        takes: Operand::One(Value {
            name: "N",
            kind: ValueKind::Number(1, MOST_CONNECTIONS as u64),
            rule: "a number of connections, 1 to 65536",
        }),
        help: "Have at most N connections open, 1 to 65536{n}[default: 1024]",
    },
    Served {
        short: None,
        long: "idle-timeout",
        takes: Operand::One(Value {
            name: "SECONDS",
            kind: ValueKind::Number(0, LONGEST_TIMEOUT as u64),
            rule: "a number of seconds without a unit, 0 to 2592000, as in 300; 0 closes none",
        }),
        help: "Close connections that are idle for SECONDS,{n}1 to 2592000; 0 closes none [default: 0]",
    },
    Served {
        short: None,
        long: "buffer-limit",
        takes: Operand::One(Value {
            name: "MIB",
            kind: ValueKind::Number(1, MOST_BUFFERS as u64),
            rule: "a number of MiB (megabytes) without a unit, 1 to 65536, as in 64",
        }),
        help: "Hold at most this many MiB of input and output{n}of connections, 1 to 65536 [default: 64]",
    },
    Served {
        short: Some('v'),
        long: "verbose",
        takes: Operand::NothingCounted,
        help: "Log each connection that opens or closes, on{n}standard error",
    },
    Served {
        short: None,
        long: "metrics",
        takes: Operand::One(Value {
            name: "[ADDR:]PORT",
            kind: ValueKind::Place,
            rule: "a port, 1 to 65535, before which an IP address may stand, \
as in 9150, 10.0.0.5:9150 and [::1]:9150",
        }),
        help: "Answer Prometheus by HTTP at this port of{n}127.0.0.1 or of ADDR [default: not at all]",
    },
    Served {
        short: None,
        long: "allow-quit",
        takes: Operand::NothingBeside("metrics"),
        help: "End by 'POST /quit' at that port, if the{n}request comes from this machine",
    },
    Served {
        short: None,
        long: "quit",
        takes: Operand::One(Value {
            name: "[ADDR:]PORT",
            kind: ValueKind::Place,
            rule: "the port of --metrics of the server, before which its IP address may stand, \
as in 9150 and 127.0.0.1:9150",
        }),
        help: "Don't serve: ask the server whose --metrics is{n}this to end, and wait at most 5 seconds for{n}\
its answer",
    },
    Served {
        short: Some('m'),
        long: "memory-limit",
        takes: Operand::One(Value {
            name: "MIB",
            kind: ValueKind::Number(1, Settings::MOST_PAGES as u64),
            rule: "a number of MiB (megabytes) without a unit, 1 to 65536, as in 64",
        }),
        help: "Keep items in at most this many pages of 1 MiB,{n}1 to 65536; below 40 some sizes find no room{n}\
[default: 64]",
    },
    Served {
        short: Some('I'),
        long: "max-item-size",
        takes: Operand::One(Value {
            name: "BYTES",
            kind: ValueKind::Bytes,
            rule: "1048576 to 8388608 bytes, as in 2097152, 2048k and 2m",
        }),
        help: "Take items of at most BYTES with key and{n}header, 1m to 8m [default: 1m]",
    },
    Served {
        short: None,
        long: "shelves",
        takes: Operand::One(Value {
            name: "N",
            kind: ValueKind::Number(1, Settings::MOST_SHELVES as u64),
            rule: "a number of shelves, a power of two, 1 to 256",
        }),
        help: "Keep keys on N shelves, a power of two,{n}1 to 256 [default: 64]",
    },
    Served {
        short: Some('M'),
        long: "disable-evictions",
        takes: Operand::Nothing,
        help: "Change nothing: nothing is ever evicted, and a{n}full store refuses",
    },
    Served {
        short: Some('U'),
        long: "udp-port",
        takes: Operand::One(Value {
            name: "0",
            kind: ValueKind::Number(0, 0),
            rule: "only 0: there is no UDP; clients reach it by TCP",
        }),
        help: "Change nothing: there is no UDP, and only 0 is{n}accepted",
    },
    Served {
        short: None,
        long: "stdin",
        takes: Operand::NothingInTests,
        help: "Serve one session over standard input and{n}output",
    },
    Served {
        short: None,
        long: "now",
        takes: Operand::OneInTests(Value {
            name: "SECONDS",
            kind: ValueKind::Number(0, Moment::LATEST),
            rule: "a number of seconds after 1970, 0 to 4611686018427387904",
        }),
        help: "Stop the clock at SECONDS after 1970{n}[default: the system's clock]",
    },
];

/// Adds the options of these rows, in order.
pub fn with_served<'a>(
    alloc: Global,
    command: Command<'a>,
    served: &[Served],
) -> Result<Command<'a>, AllocError> {
    let mut command = command;
    for option in served {
        command = command.arg(argument_of(alloc, option)?)?;
    }
    Ok(command)
}

/// Returns the argument of an option.
pub fn argument_of<'a>(alloc: Global, option: &Served) -> Result<Arg<'a>, AllocError> {
    let argument = Arg::new(alloc, option.long)
        .long(option.long)
        .help(option.help);
    taking(
        headed(named(argument, option.short), &option.takes),
        &option.takes,
    )
}

/// Returns an argument with its short name, if there is one.
fn named<'a>(argument: Arg<'a>, short: Option<char>) -> Arg<'a> {
    match short {
        Some(letter) => argument.short(letter),
        None => argument,
    }
}

/// Returns an argument below the heading for tests, if its option is for tests.
fn headed<'a>(argument: Arg<'a>, takes: &Operand) -> Arg<'a> {
    if takes.is_for_tests() {
        argument.help_heading(FOR_TESTS)
    } else {
        argument
    }
}

/// Returns an argument that takes what follows its option.
fn taking<'a>(argument: Arg<'a>, takes: &Operand) -> Result<Arg<'a>, AllocError> {
    match takes {
        Operand::Nothing | Operand::NothingInTests => Ok(argument.action(ArgAction::SetTrue)),
        Operand::NothingBeside(other) => argument.action(ArgAction::SetTrue).requires_arg(*other),
        Operand::NothingCounted => Ok(argument.action(ArgAction::Count)),
        Operand::One(value) | Operand::OneInTests(value) => {
            Ok(argument.action(ArgAction::Set).value_name(value.name))
        }
        Operand::Many(value) => Ok(
            argument
                .action(ArgAction::Append)
                .value_name(value.name)
                .value_delimiter(','),
        ),
    }
}
