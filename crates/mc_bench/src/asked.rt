//! The command line.
ghost use Rattle.std.specs.Prelude.{◌≢◌, IsNone, length};

use mc_shelf::Settings;

/// The default number of calls of each caller.
const CALLS: u32 = 25_000;

/// The pages of the stores of steps.
const PAGES: u32 = 64;

/// The default number of shelves.
const SHELVES: u32 = 64;

/// A run.
#[derive(Clone, Copy)]
pub enum Run {
    /// Sessions of one world take turns for some rounds.
    Worlds {
        sessions: u16,
        rounds: u32,
    },
    /// Threads take steps.
    Steps(Threaded),
    /// Callers in threads make calls, and print each call with its reply.
    ///
    /// The calls follow from the seed; each caller makes as many.
    Record {
        seed: u64,
        calls: u32,
    },
    /// Keys are searched among some items: as many windows of keys with an item as of keys without.
    Finds {
        within: Within,
        items: u32,
        windows: u32,
    },
}

/// Where keys are searched.
#[derive(Clone, Copy)]
pub enum Within {
    /// In the indexes of a store's shelves, by themselves.
    Index,
    /// In the store of one thread, by its step that reads.
    Store,
}

/// The steps of a run.
#[derive(Clone, Copy)]
pub struct Threaded {
    pub over: Over,
    pub mix: Mix,
    pub crew: Crew,
    /// The number of steps of each thread.
    pub rounds: u64,
    /// The settings of the store.
    pub settings: Settings,
}

/// The store that takes the steps, and their keys.
#[derive(Clone, Copy)]
pub enum Over {
    /// The store of one thread.
    Store,
    /// The shared store, a key for each thread.
    Own,
    /// The shared store, a key for each thread, on shelves side by side.
    Side,
    /// The shared store, one key for all threads.
    Same,
    /// The shared store, with keys that each thread draws from all that are there.
    Drawn,
}

/// The kinds of steps.
#[derive(Clone, Copy)]
pub enum Mix {
    Gets,
    Sets,
    /// Nine gets and a set, again and again.
    Mixed,
    /// Gets of a key that isn't there.
    Misses,
    /// Sets of a key that isn't there, each followed by its delete.
    Renewals,
}

/// The number of threads.
#[derive(Clone, Copy)]
pub enum Crew {
    One,
    Two,
    Four,
}

/// Returns the run that the command line names, or `None` if it names none.
///
/// The words are the program's name, the run's and its arguments.
pub fn asked_run(words: &[String]) -> Option<Run>
    ensures { (length words.now ≢ 3) × (length words.now ≢ 4) × (length words.now ≢ 5)
        × (length words.now ≢ 6) × (length words.now ≢ 7) → IsNone result }
{
    match words {
        [_, run, seed] if run.as_str() == "record" => Some(Run::Record {
            seed: seed.parse().ok()?,
            calls: CALLS,
        }),
        [_, run, seed, calls] if run.as_str() == "record" => Some(Run::Record {
            seed: seed.parse().ok()?,
            calls: calls.parse().ok()?,
        }),
        [_, run, sessions, rounds] if run.as_str() == "worlds" => Some(Run::Worlds {
            sessions: sessions.parse().ok()?,
            rounds: rounds.parse().ok()?,
        }),
        [_, run, within, items, windows] if run.as_str() == "finds" => Some(Run::Finds {
            within: within_of(within.as_str())?,
            items: items.parse().ok()?,
            windows: windows.parse().ok()?,
        }),
        [_, run, over, mix, crew, rounds] if run.as_str() == "steps" => {
            steps_of(over, mix, crew, rounds.parse().ok()?, SHELVES)
        }
        [_, run, over, mix, crew, rounds, shelves] if run.as_str() == "steps" => steps_of(
            over,
            mix,
            crew,
            rounds.parse().ok()?,
            shelves.parse().ok()?,
        ),
        // other words, or more than any run takes
        _other => None,
    }
}

/// Reads the steps of a store with this many shelves.
fn steps_of(over: &str, mix: &str, crew: &str, rounds: u64, shelves: u32) -> Option<Run> {
    Some(Run::Steps(Threaded {
        over: over_of(over)?,
        mix: mix_of(mix)?,
        crew: crew_of(crew)?,
        rounds,
        settings: Settings::new(PAGES, Settings::GREATEST, shelves)?,
    }))
}

/// Reads the store and the keys.
fn over_of(word: &str) -> Option<Over> {
    match word {
        "store" => Some(Over::Store),
        "own" => Some(Over::Own),
        "side" => Some(Over::Side),
        "same" => Some(Over::Same),
        "drawn" => Some(Over::Drawn),
        _ => None,
    }
}

/// Reads where keys are searched.
fn within_of(word: &str) -> Option<Within> {
    match word {
        "index" => Some(Within::Index),
        "store" => Some(Within::Store),
        _ => None,
    }
}

/// Reads the kinds of steps.
fn mix_of(word: &str) -> Option<Mix> {
    match word {
        "gets" => Some(Mix::Gets),
        "sets" => Some(Mix::Sets),
        "mixed" => Some(Mix::Mixed),
        "misses" => Some(Mix::Misses),
        "renewals" => Some(Mix::Renewals),
        _ => None,
    }
}

/// Reads the number of threads.
fn crew_of(word: &str) -> Option<Crew> {
    match word {
        "1" => Some(Crew::One),
        "2" => Some(Crew::Two),
        "4" => Some(Crew::Four),
        _ => None,
    }
}
