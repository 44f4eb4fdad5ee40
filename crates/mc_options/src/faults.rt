//! What is wrong with a command line, a line each.
//!
//! Lines have no name of the program before them: what writes them adds it. So a line of the
//! program's own and one of `clap` have one form.

use crate::ignored::IGNORED;
use crate::served::{SERVED, Served, Value};
use crate::unserved::{UNSERVED, Unserved};
use clap::{ArgMatches, Error};
use std::alloc::{AllocError, Global};

/// What follows the text of `clap`, which has no way out.
const HELP: &str = " (mcserver --help has the options)";

/// Returns a line for each option that isn't served and for each value that isn't fit.
///
/// Unserved options are first. The only error is a refused allocation.
pub fn faults_in(alloc: Global, matches: &ArgMatches<'_>) -> Result<String, AllocError> {
    let mut lines = String::new(alloc);
    note_unserved(&mut lines, matches, &UNSERVED)?;
    note_unfit(&mut lines, matches, &SERVED)?;
    note_unfit(&mut lines, matches, &IGNORED)?;
    Ok(lines)
}

/// Appends a line for each of these unserved options of memcached that is given.
fn note_unserved(
    lines: &mut String,
    matches: &ArgMatches<'_>,
    unserved: &[Unserved],
) -> Result<(), AllocError> {
    for option in unserved {
        if option.is_in(matches) {
            let (short, long, instead) = (option.short, option.long, option.instead);
            write!(lines, "'-{short}' ('--{long}') isn't served: {instead}\n")?;
        }
    }
    Ok(())
}

/// Appends a line for each value of these options that isn't fit.
fn note_unfit(
    lines: &mut String,
    matches: &ArgMatches<'_>,
    served: &[Served],
) -> Result<(), AllocError> {
    for option in served {
        if let Some(value) = option.takes.value() {
            let texts = matches.get_strs(option.long).unwrap_or(&[]);
            let passes_empty = option.takes.is_list() && has_text(texts);
            note_texts(lines, option, value, passes_empty, texts)?;
        }
    }
    Ok(())
}

/// Returns whether one of these texts isn't empty.
fn has_text(texts: &[&str]) -> bool {
    for text in texts {
        if !text.is_empty() {
            return true;
        }
    }
    false
}

/// Appends a line for each of these texts that isn't fit as the value of an option. An empty one
/// may be passed over: it stands before or behind a comma.
fn note_texts(
    lines: &mut String,
    option: &Served,
    value: Value,
    passes_empty: bool,
    texts: &[&str],
) -> Result<(), AllocError> {
    for text in texts {
        if !(passes_empty && text.is_empty()) && !value.kind.takes(text) {
            push_name(lines, option)?;
            let rule = value.rule;
            write!(lines, " {text:?}: {rule}\n")?;
        }
    }
    Ok(())
}

/// Appends the short name of an option, or its long name if it has no short one.
fn push_name(lines: &mut String, option: &Served) -> Result<(), AllocError> {
    match option.short {
        Some(short) => write!(lines, "-{short}"),
        None => {
            let long = option.long;
            write!(lines, "--{long}")
        }
    }
}

/// Returns the mistake that `clap` found as one line. The only error is a refused allocation.
///
/// It has the paragraphs before the usage, whose lines are joined, and names the help.
pub fn mistake_line(alloc: Global, error: &Error) -> Result<String, AllocError> {
    let text = format!(in alloc; "{error}")?;
    let mut line = String::new(alloc);
    for part in text.as_str().lines() {
        let part = part.trim();
        if part.starts_with("Usage:") || part.starts_with("For more information") {
            break;
        }
        push_part(&mut line, part)?;
    }
    line.push_str(HELP)?;
    line.push_str("\n")?;
    Ok(line)
}

/// Appends a line of the text of `clap`, without its title.
fn push_part(line: &mut String, part: &str) -> Result<(), AllocError> {
    if let Some(first) = part.strip_prefix("error: ") {
        return line.push_str(first);
    }
    if let Some(tip) = part.strip_prefix("tip: ") {
        line.push_str("; ")?;
        return line.push_str(tip);
    }
    if part.is_empty() {
        return Ok(());
    }
    line.push_str(" ")?;
    line.push_str(part)
}
