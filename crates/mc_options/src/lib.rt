//! The command line of the program.
//!
//! Options follow memcached, so that its command lines can be reused. One that would change nothing
//! here is accepted and named on the first line (`src/ignored.rt`). Any other unsupported option is
//! refused, and the error names the alternative (`src/unserved.rt`): ignoring it would leave the
//! operator with less than was requested. The supported options are a table too (`src/served.rt`),
//! with the values that fit each (`src/value.rt`). `clap` reads the words and makes the help. All
//! faults of a line are named at once, each in one line (`src/faults.rt`).
//!
//! [`parse_options`] turns words into [`Options`], or returns why not ([`Unfit`]). In between is
//! [`RawOptions`], exactly what `clap` found: each number if it was given. [`RawOptions::settings`]
//! makes the store's settings of it, and `Options::new` all the rest. [`Endpoints`] are where the
//! program listens, by `-l` and `-p`. So each default is in the code once.
//!
//! Contracts state for each number that it is the given one, if that is in range, and the default
//! if none was given; so no caller checks a range again. `--stdin` and `--allow-quit` are set if
//! `clap` found them, and only then. Which word sets which other field, and the texts, are tested
//! (tests/rows); docs/PROTOCOL.md and the manual have the table.
//!
//! Begin with `specs/Asked.antt` and `src/options.rt`.
//!
//! Tests: mc_server_tests, src/tests/session_tests.rt.
#![tactic(auto)]

mod endpoints;
mod faults;
mod ignored;
mod options;
mod served;
mod unserved;
mod value;

pub use endpoints::{AskedAddress, Endpoints, ListenAddress};
pub use ignored::Ignored;
pub use options::{AskedPlace, Options, RawOptions, Unfit, parse_options};
