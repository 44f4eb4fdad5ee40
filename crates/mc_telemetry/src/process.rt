//! What the system reports of the process, in `/proc` of Linux (proc(5)).
//!
//! The names and units are those of Prometheus' client libraries. What can't be read is left out.
//! Only the program's own thread may read files: a bound of files is assumed of one thread.
ghost use Rattle.std.specs.Prelude.{◌≡◌, ◌==◌, ◌-◌, IfOk, IfSome, slice_get};
ghost use Rattle.std.specs.List.{after_last, count_by};
ghost use Rattle.std.specs.Option.{option_copied};
ghost use Rattle.std.specs.Str.{byte};
ghost use Rattle.mc_protocol.specs.Words.{words};
ghost use Rattle.mc_telemetry.specs.Processes.{cpu_of, field_of, figures_of};
ghost use Rattle.mc_telemetry.specs.Processes.{names_in, resident_of};

use mc_metrics::ProcessReading;
use mc_protocol::{first_word, number_up_to};
use std::alloc::AllocGlobal;
use std::fs::{self, Files};
use std::io::{self, ErrorKind, Read};

/// The files with the figures of the process and of the system.
const PROCESS: &str = "/proc/self/stat";

const SYSTEM: &str = "/proc/stat";

/// The directory with a name for each open descriptor of the process.
const DESCRIPTORS: &str = "/proc/self/fd/";

/// The names there that are no descriptor of the program: `.`, `..`, and the one that reads them.
const OTHERS: u64 = 3;

/// The beginning of the line with the system's start, in seconds since 1970.
const STARTED: &str = "btime ";

/// The ticks of a second in times of the process: on x86-64 a constant.
const TICKS: u64 = 100;

/// The bytes of a page of memory on x86-64.
const KERNEL_PAGE: u64 = 4096;

/// The first field behind the program's name, counted from 1.
const FIRST: usize = 3;

/// The fields with the time on processors, in ticks: the process' own, and the system's for it.
const OWN_TIME: usize = 14;

const SYSTEM_TIME: usize = 15;

/// The field with the start, in ticks since the system's.
const BEGAN: usize = 22;

/// The fields with the bytes of the address space, and with the pages in memory.
const ADDRESSES: usize = 23;

const RESIDENT: usize = 24;

/// How many bytes of names are read at once.
const PIECE: usize = 4096;

/// Returns the start of the process, in seconds since 1970, if the system reports it.
pub fn process_start<R: Files + AllocGlobal>(rt: &R) -> Option<u64> {
    let process = fs::read(rt, PROCESS).ok()?;
    let system = fs::read_to_string(rt, SYSTEM).ok()?;
    let began = field_of(process.as_slice(), BEGAN)? / TICKS;
    system_start(system.as_str())?.checked_add(began)
}

/// Returns the start of the system, in seconds since 1970.
fn system_start(text: &str) -> Option<u64> {
    let line = text.lines().find(|line| line.starts_with(STARTED))?;
    line.strip_prefix(STARTED)?.trim().parse::<u64>().ok()
}

/// Returns what the system reports of the process now, without its start and its limits.
///
/// It reads files. What can't be read, also for want of memory or of a descriptor, is left out.
pub(crate) fn process_now<R: Files + AllocGlobal>(rt: &R) -> ProcessReading {
    let figures = match fs::read(rt, PROCESS) {
        Ok(stat) => figures_of(stat.as_slice()),
        Err(_) => ProcessReading::NONE,
    };
    ProcessReading {
        open_fds: open_descriptors(rt),
        ..figures
    }
}

/// Returns the number of open descriptors of the process.
fn open_descriptors<R: Files>(rt: &R) -> Option<u64> {
    let mut names = rt.open_dir(DESCRIPTORS).ok()?;
    count_names(&mut names).ok()?.checked_sub(OTHERS)
}

/// Returns the number of names of a directory that is read as its names, each ended by a NUL.
fn count_names<D: Read>(names: &mut D) -> io::Result<u64>
    ensures { IfOk result (λ count. IfSome (D.remaining names.old) (λ listing.
        count ≡ names_in listing)) }
{
    let mut count = 0u64;
    let mut piece = [0u8; PIECE];
    for _turn in 0..u64::MAX {
        let read = names.read(&mut piece)?;
        if read == 0 {
            return Ok(count);
        }
        let (front, _) = piece.split_at(read);
        count = count.saturating_add(ends_in(front));
    }
    Err(io::Error::from(ErrorKind::Other))
}

/// Returns how many names end in a piece of a listing.
fn ends_in(piece: &[u8]) -> u64
    ensures { result ≡ count_by (λ b. b == 0) piece.now }
{
    piece.iter().filter(|byte| **byte == 0).count() as u64
}

/// Returns the figures of a text of `/proc/self/stat` that change while the process runs.
fn figures_of(stat: &[u8]) -> ProcessReading
    ensures { result ≡ figures_of stat.now }
{
    ProcessReading {
        resident: resident_of(stat),
        virtual_size: field_of(stat, ADDRESSES),
        cpu: cpu_of(stat),
        ..ProcessReading::NONE
    }
}

/// Returns the bytes of the process in memory, if the text has them.
fn resident_of(stat: &[u8]) -> Option<u64>
    ensures { result ≡ resident_of stat.now }
{
    Some(field_of(stat, RESIDENT)?.saturating_mul(KERNEL_PAGE))
}

/// Returns the time for which the process used a processor, in hundredths of a second.
fn cpu_of(stat: &[u8]) -> Option<u64>
    ensures { result ≡ cpu_of stat.now }
{
    let own = field_of(stat, OWN_TIME)?;
    Some(own.saturating_add(field_of(stat, SYSTEM_TIME)?))
}

/// Returns the number in a field, counted from 1 as in proc(5), if it is one.
fn field_of(stat: &[u8], field: usize) -> Option<u64>
    ensures { result ≡ field_of stat.now field }
{
    let word = word_at(behind_name(stat), field.saturating_sub(FIRST))?;
    number_up_to(u64::MAX, word)
}

/// Returns what follows the program's name: what stands behind the last `)`, or all of it.
fn behind_name(stat: &[u8]) -> &[u8]
    ensures { result.now ≡ after_last (λ b. b == byte ")") stat.now }
{
    let mut end = stat.len();
    while end > 0 && stat[end - 1] != b')' {
        end -= 1;
    }
    let (_, rest) = stat.split_at(end);
    rest
}

/// Returns the word at a place, counted from 0, if there is one.
#[tactic(auto, using(crate::proofs::WordsLemmas::one_sooner))]
fn word_at(text: &[u8], place: usize) -> Option<&[u8]>
    ensures { option_copied result ≡ slice_get (words text.now) place }
{
    let mut rest = text;
    for _step in 0..place {
        let (_, more) = first_word(rest)?;
        rest = more;
    }
    let (word, _) = first_word(rest)?;
    Some(word)
}
