//! `mcserver`: a cache server that speaks memcached's text protocol.
//!
//! The program reads its command line, does what it asks for, and ends with a status and, where
//! there is something to say, a line on standard error. What it does is a run of `mc_run`; how it
//! ends is the table of ends in `mc_host`.
//!
//! Contracts state that the status is that of the end. Which words ask for what is proved in
//! `mc_options`, and the texts are tested (tests/rows).
//!
//! Begin with `main.rt`, and then `mc_run`.
//!
//! Tests: mc_server_tests, src/tests/tcp_tests.rt.
#![tactic(auto)]

ghost use Rattle.std.specs.Prelude.{◌≡◌};
ghost use Rattle.std.specs.Process.{exit_status};
ghost use Rattle.mc_host.specs.Ends.{status_of};

use clap::error::ErrorKind;
use mc_host::{Diagnostics, End, Level, ListenFault, QuitFault, ask_server, has_small_stack};
use mc_options::{Options, Unfit};
use mc_run::run;
use std::process::ExitCode;
use std::{env, io};

fn main(rt: HostRuntime) -> ExitCode {
    let diagnostics = Diagnostics::new(&rt, rt.stderr());
    if has_small_stack(&rt) {
        return tell_end(diagnostics, &End::SmallStack);
    }
    let end = match read_options(&rt, diagnostics) {
        Ok(options) => match options.quit {
            Some(endpoint) => ask_server(&rt, endpoint),
            None => run(&rt, diagnostics, options, &mut rt.stdin(), &mut rt.stdout()),
        },
        Err(end) => end,
    };
    tell_end(diagnostics, &end)
}

/// Returns what the command line asks for, or how the program ends without that.
fn read_options(rt: &HostRuntime, diagnostics: Diagnostics) -> Result<Options, End> {
    let words = words(rt)?;
    match mc_options::parse_options(rt.alloc(), words.as_slice()) {
        Ok(options) => Ok(options),
        Err(Unfit::Told(error)) => Err(End::of_options(&error, &print_fault(rt, &error))),
        Err(Unfit::Faults(lines)) => Err(tell_faults(diagnostics, lines.as_str())),
        Err(Unfit::Shelves) => Err(End::BadShelves),
    }
}

/// Prints the faults of the command line, a line each, and returns the end for them.
fn tell_faults(diagnostics: Diagnostics, lines: &str) -> End
    ensures { result ≡ End.BadCommandLine }
{
    let Diagnostics { stderr, .. } = diagnostics;
    let level = diagnostics.prefix(Level::Error);
    for line in lines.lines() {
        // if standard error is closed only the status is left
        let _ = eprintln!(stderr; "{level}mcserver: {line}");
    }
    End::BadCommandLine
}

/// Returns the words of the command line, which begin with the program's name.
///
/// The error is how the program ends without them.
fn words(rt: &HostRuntime) -> Result<Vec<String>, End> {
    let words = env::args(rt).map_err(End::of_words)?;
    Ok(words.collect(rt.alloc())?)
}

/// Prints help or the version to standard output. It prints nothing if memory is refused.
fn print_fault(rt: &HostRuntime, error: &clap::Error) -> io::Result<()> {
    if error.kind() == ErrorKind::OutOfMemory {
        return Ok(());
    }
    error.print(rt)
}

/// Prints why the program ends, and returns its status.
fn tell_end(diagnostics: Diagnostics, end: &End) -> ExitCode
    ensures { exit_status result ≡ status_of end.now }
{
    let (status, text) = end.ending();
    if !text.is_empty() {
        tell_why(diagnostics, end, text);
    }
    ExitCode::from(status)
}

/// Prints the text of an end, and the endpoint and the reason if it has them.
fn tell_why(diagnostics: Diagnostics, end: &End, text: &str) {
    let Diagnostics { stderr, .. } = diagnostics;
    let level = diagnostics.prefix(Level::Error);
    // if standard error is closed too, only the status is left
    let _ = match end {
        End::CannotListen(ListenFault { endpoint, why }) => {
            let reason = why.reason();
            eprintln!(stderr; "{level}{text} on {endpoint}: {reason}")
        }
        End::Denied(QuitFault { endpoint, why }) => {
            let reason = why.reason();
            eprintln!(stderr; "{level}{text} {endpoint}: {reason}")
        }
        _ => eprintln!(stderr; "{level}{text}"),
    };
}
