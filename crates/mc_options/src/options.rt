//! The options of the command line.
ghost use Rattle.std.specs.Prelude.{◌≡◌, ◌≤◌, ◌^◌, min, option_map, IfOk, IfSome, None, codes};
ghost use Rattle.mc_options.specs.Asked.{IsUpTo, IsAskedFor, IsTimeoutFor, IsGreatestFor};
ghost use Rattle.mc_options.specs.Asked.{AsksNoShelfCount, IsScrapePlaceFor};
ghost use Rattle.mc_options.specs.Flags.{IsFlagOf};

use crate::endpoints::{AskedAddress, Endpoints, ListenAddress, address_of};
use crate::faults::{faults_in, mistake_line};
use crate::ignored::{IGNORED, Ignored, ignored_in, with_ignored};
use crate::served::{SERVED, with_served};
use crate::unserved::{UNSERVED, with_unserved};
use crate::value::{self, place_of};
use clap::error::ErrorKind;
use clap::{ArgMatches, Command, Error};
use mc_sizes::Settings;
use mc_time::Moment;
use std::alloc::{AllocError, Global};
use std::net::IpAddr;

/// The program's version, and the version of memcached's protocol, which `version` returns.
const VERSION: &str = "0.9.0 (memcached's protocol 1.6.0)";

/// The most workers.
pub const MOST_WORKERS: u32 = 64;

/// The largest limit of open connections.
pub const MOST_CONNECTIONS: u32 = 65536;

/// The longest idle timeout, in seconds: 30 days.
pub const LONGEST_TIMEOUT: u32 = 2_592_000;

/// The default limit of open connections.
const CONNECTIONS: u32 = 1024;

/// The largest limit of connection buffers, in MiB.
pub const MOST_BUFFERS: u32 = 65536;

/// The default limit of connection buffers, in MiB.
const BUFFERS: u32 = 64;

/// The default number of workers.
const WORKERS: u32 = 4;

/// The default number of pages of a store.
const PAGES: u32 = 64;

/// The default number of shelves of a store.
const SHELVES: u32 = 64;

/// The text below the options in the help.
const STATUSES: &str = "\
Exit status:
  0  the input is at its end, or the session was closed by quit or by a line
     that is too long; or the server was asked to end (--allow-quit); or it
     accepted to end (--quit)
  1  a read or a write failed, memory ran out, or it can't listen; or the
     server didn't accept to end (--quit)
  2  the command line is bad";

/// What `clap` found on the command line.
#[derive(Clone, Copy)]
pub struct RawOptions {
    /// `--stdin` is there.
    pub stdin: bool,
    /// The seconds of `--now`.
    pub now: Option<u64>,
    /// The pages of `-m`.
    pub pages: Option<u32>,
    /// The bytes of `-I`.
    pub greatest: Option<u64>,
    /// The shelves of `--shelves`.
    pub shelves: Option<u32>,
    /// The workers of `-t`.
    pub workers: Option<u32>,
    /// The connections of `-c`.
    pub connections: Option<u32>,
    /// The seconds of `--idle-timeout`.
    pub idle_timeout: Option<u32>,
    /// The MiB of `--buffer-limit`.
    pub buffers: Option<u32>,
    /// The place of `--metrics`.
    pub scrapes: Option<AskedPlace>,
    /// `--allow-quit` is there.
    pub may_quit: bool,
    /// The place of `--quit`.
    pub quit: Option<AskedPlace>,
    /// `-v` is there.
    pub verbose: bool,
}

/// The place of `--metrics` or `--quit`, as on the command line.
#[derive(Clone, Copy)]
pub struct AskedPlace {
    pub address: Option<IpAddr>,
    pub port: u16,
}

/// The options of the program.
#[derive(Drop)]
pub struct Options {
    /// It serves one session over standard input and output.
    pub stdin: bool,
    /// The moment of a standing clock; without one it reads the system's clock.
    pub now: Option<Moment>,
    /// The settings of the store.
    pub settings: Settings,
    /// Where it listens.
    pub endpoints: Endpoints,
    /// The number of workers, 1 to 64.
    pub workers: u32,
    /// The limit of open connections, 1 to 65536.
    pub connections: u32,
    /// Idle timeout of a connection in seconds, at most 2592000; 0 disables it.
    pub idle_timeout: u32,
    /// The limit of connection buffers (input and output) in MiB, 1 to 65536.
    pub buffers: u32,
    /// Where scrapes are answered, if anywhere.
    pub scrapes: Option<ListenAddress>,
    /// Peers on this machine may end it, where scrapes are answered.
    pub may_quit: bool,
    /// Where the server answers scrapes that it is to ask to end. It serves nothing itself then.
    pub quit: Option<ListenAddress>,
    /// It logs each connection that opens or closes.
    pub verbose: bool,
    /// The options of memcached that were given and change nothing.
    pub ignored: Ignored,
}

/// Why the command line has no options.
#[derive(Drop)]
pub enum Unfit {
    /// Help or the version, or want of memory: errors of `clap`.
    Told(Error),
    /// The faults of the command line, a line each, without the program's name.
    Faults(String),
    /// The number of shelves isn't a power of two.
    Shelves,
}

impl From<AllocError> for Unfit {
    fn from(refused: AllocError) -> Unfit {
        Unfit::Told(Error::from(refused))
    }
}

impl RawOptions {
    /// Returns the settings of the store, or `None` if the number of shelves isn't a power of two.
    ///
    /// The defaults are 64 pages, items of at most 1048576 bytes, and 64 shelves. A number out of
    /// range, which is refused before, is brought into its range.
    pub fn settings(self) -> Option<Settings>
        ensures pages { IfSome result (λ settings. IsAskedFor self.pages 64 65536 settings.pages) }
        ensures greatest { IfSome result (λ settings.
            IsGreatestFor self.greatest settings.greatest) }
        ensures shelves { IfSome result (λ settings.
            IsAskedFor self.shelves 64 256 settings.shelves) }
        ensures none { result ≡ None → AsksNoShelfCount self.shelves }
    {
        let pages = asked_or_usual(self.pages, PAGES, Settings::MOST_PAGES);
        let shelves = asked_or_usual(self.shelves, SHELVES, Settings::MOST_SHELVES);
        Settings::new(pages, greatest_of(self.greatest), shelves)
    }
}

impl Options {
    /// Returns the options, given what `clap` found, the settings, the endpoints, and what is
    /// ignored.
    ///
    /// The defaults are 4 workers, 1024 connections, no idle timeout, 64 MiB of connection buffers,
    /// and no scrapes, or scrapes at 127.0.0.1 if only a port is given. A number out of range,
    /// which is refused before, is brought into its range.
    pub fn new(
        asked: RawOptions,
        settings: Settings,
        endpoints: Endpoints,
        ignored: Ignored,
    ) -> Options
        ensures stdin { result.stdin ≡ asked.stdin }
        ensures now { result.now ≡ option_map (min (2 ^ 62)) asked.now }
        ensures settings { result.settings ≡ settings }
        ensures endpoints { result.endpoints ≡ endpoints }
        ensures workers { IsAskedFor asked.workers 4 64 result.workers }
        ensures connections { IsAskedFor asked.connections 1024 65536 result.connections }
        ensures idle_timeout { IsTimeoutFor asked.idle_timeout 2592000 result.idle_timeout }
        ensures buffers { IsAskedFor asked.buffers 64 65536 result.buffers }
        ensures scrapes { IsScrapePlaceFor asked.scrapes result.scrapes }
        ensures may_quit { result.may_quit ≡ asked.may_quit }
        ensures quit { IsScrapePlaceFor asked.quit result.quit }
        ensures verbose { result.verbose ≡ asked.verbose }
        ensures ignored { result.ignored ≡ ignored }
    {
        Options {
            stdin: asked.stdin,
            now: asked.now.map(Moment::from_seconds_at_most),
            settings,
            endpoints,
            workers: asked_or_usual(asked.workers, WORKERS, MOST_WORKERS),
            connections: asked_or_usual(asked.connections, CONNECTIONS, MOST_CONNECTIONS),
            idle_timeout: timeout(asked.idle_timeout, LONGEST_TIMEOUT),
            buffers: asked_or_usual(asked.buffers, BUFFERS, MOST_BUFFERS),
            scrapes: scrape_place(asked.scrapes),
            may_quit: asked.may_quit,
            quit: scrape_place(asked.quit),
            verbose: asked.verbose,
            ignored,
        }
    }
}

/// Returns the place of `--metrics` or `--quit`, or `None`; without an address it is 127.0.0.1.
fn scrape_place(asked: Option<AskedPlace>) -> Option<ListenAddress>
    ensures { IsScrapePlaceFor asked result }
{
    match asked {
        Some(place) => Some(ListenAddress {
            address: address_of(place.address),
            port: place.port.max(1),
        }),
        None => None,
    }
}

/// Returns the number, brought into 1 to `most`, or the default if there is none.
fn asked_or_usual(asked: Option<u32>, usual: u32, most: u32) -> u32
    requires { IsUpTo most usual }
    ensures { IsAskedFor asked usual most result }
{
    match asked {
        Some(number) => number.clamp(1, most),
        None => usual,
    }
}

/// Returns the greatest charge of an item, brought into 1 to 8 pages, or 1 page if there is none.
fn greatest_of(asked: Option<u64>) -> u64
    ensures { IsGreatestFor asked result }
{
    match asked {
        Some(bytes) => bytes.clamp(Settings::GREATEST, Settings::MOST_GREATEST),
        None => Settings::GREATEST,
    }
}

/// Returns the seconds, at most `longest`, or 0 if there are none.
fn timeout(asked: Option<u32>, longest: u32) -> u32
    ensures { IsTimeoutFor asked longest result }
{
    match asked {
        Some(seconds) => seconds.min(longest),
        None => 0,
    }
}

/// Reads the words of the command line, which begin with the program's name.
pub fn parse_options(alloc: Global, words: &[String]) -> Result<Options, Unfit>
    ensures workers { IfOk result (λ options. 1 ≤ options.workers × options.workers ≤ 64) }
    ensures connections { IfOk result (λ options.
        1 ≤ options.connections × options.connections ≤ 65536) }
    ensures idle_timeout { IfOk result (λ options. options.idle_timeout ≤ 2592000) }
    ensures buffers { IfOk result (λ options. 1 ≤ options.buffers × options.buffers ≤ 65536) }
{
    let (asked, endpoints, ignored) = read_words(alloc, words)?;
    match asked.settings() {
        Some(settings) => Ok(Options::new(asked, settings, endpoints, ignored)),
        None => Err(Unfit::Shelves),
    }
}

/// What is given, where to listen, and what is ignored.
type Given = (RawOptions, Endpoints, Ignored);

/// Reads what is given, where to listen and what is ignored, from the words of the command line.
fn read_words(alloc: Global, words: &[String]) -> Result<Given, Unfit> {
    let mut command = command(alloc)?;
    match command.try_get_matches_from_mut(words) {
        Ok(matches) => read_matches(alloc, &matches),
        Err(error) => Err(unfit_of(alloc, error)),
    }
}

/// Returns why the command line has no options, if `clap` returns an error.
fn unfit_of(alloc: Global, error: Error) -> Unfit {
    if error.kind() == ErrorKind::OutOfMemory || !error.use_stderr() {
        return Unfit::Told(error);
    }
    match mistake_line(alloc, &error) {
        Ok(line) => Unfit::Faults(line),
        Err(refused) => Unfit::from(refused),
    }
}

/// Reads what is given, where to listen and what is ignored, from what `clap` found.
fn read_matches(alloc: Global, matches: &ArgMatches<'_>) -> Result<Given, Unfit> {
    let faults = faults_in(alloc, matches)?;
    if !faults.as_str().is_empty() {
        return Err(Unfit::Faults(faults));
    }
    let endpoints = endpoints_in(alloc, matches)?;
    let ignored = ignored_in(alloc, matches, &IGNORED)?;
    Ok((asked_of(matches), endpoints, ignored))
}

/// Returns what is given, except where to listen. A value that isn't fit was refused before, and
/// counts as not given.
fn asked_of(matches: &ArgMatches<'_>) -> RawOptions
    ensures stdin { IsFlagOf matches.now (codes "stdin") result.stdin }
    ensures may_quit { IsFlagOf matches.now (codes "allow-quit") result.may_quit }
{
    RawOptions {
        stdin: matches.get_flag("stdin"),
        now: matches.get_one::<u64>("now"),
        pages: matches.get_one::<u32>("memory-limit"),
        greatest: greatest_in(matches),
        shelves: matches.get_one::<u32>("shelves"),
        workers: matches.get_one::<u32>("threads"),
        connections: matches.get_one::<u32>("conn-limit"),
        idle_timeout: matches.get_one::<u32>("idle-timeout"),
        buffers: matches.get_one::<u32>("buffer-limit"),
        scrapes: place_in(matches, "metrics"),
        may_quit: matches.get_flag("allow-quit"),
        quit: place_in(matches, "quit"),
        verbose: matches.get_count("verbose") > 0,
    }
}

/// Reads where to listen, from `-l` and `-p`. The only error is a refused allocation.
fn endpoints_in(alloc: Global, matches: &ArgMatches<'_>) -> Result<Endpoints, AllocError> {
    let mut addresses = Vec::new(alloc);
    for text in matches.get_strs("listen").unwrap_or(&[]) {
        if let Some(address) = AskedAddress::of(text) {
            addresses.push(address)?;
        }
    }
    let port = matches.get_one::<u16>("port");
    Endpoints::new(alloc, addresses.as_slice(), port)
}

/// Reads the place of an option, if it is given.
fn place_in(matches: &ArgMatches<'_>, option: &str) -> Option<AskedPlace> {
    place_of(matches.get_str(option)?)
}

/// Reads the greatest charge of an item, from `-I`.
fn greatest_in(matches: &ArgMatches<'_>) -> Option<u64> {
    value::greatest_of(matches.get_str("max-item-size")?)
}

/// Returns the command with all options.
fn command<'a>(alloc: Global) -> Result<Command<'a>, AllocError> {
    let command = with_served(alloc, described(alloc)?, &SERVED)?;
    let command = with_ignored(alloc, command, &IGNORED)?;
    with_unserved(alloc, command, &UNSERVED)
}

/// Returns the command without options.
fn described<'a>(alloc: Global) -> Result<Command<'a>, AllocError> {
    let command = Command::new(alloc, "mcserver").bin_name("mcserver")?;
    Ok(
        command
            .version(VERSION)
            .about("A cache server that speaks memcached's text protocol")
            .after_help(STATUSES)
            .args_override_self(true),
    )
}
