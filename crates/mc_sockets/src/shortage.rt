//! The full notice: one line a minute while steps are refused for want of a chunk.

use crate::log::Log;
use mc_links::{Outcome, Tally};
use mc_protocol::{CHUNK_HEAD, KeyStep, Verb};
use std::sync::atomic::{AtomicU64, Ordering};

/// What a refused step needed.
#[derive(Clone, Copy)]
pub enum Wanted {
    /// A chunk for an item of this many bytes.
    Size(u64),
    /// A chunk for an item that grows. The step alone doesn't have the item's size.
    Growth,
}

impl Wanted {
    /// Returns what the step needed.
    pub fn of(step: &KeyStep<'_>) -> Wanted {
        match step {
            KeyStep::Store {
                verb: Verb::Set | Verb::Add | Verb::Replace,
                key,
                block,
                ..
            }
            | KeyStep::Cas { key, block, .. } => {
                let key = key.as_slice().len() as u64;
                let block = block.as_slice().len() as u64;
                Wanted::Size(CHUNK_HEAD.saturating_add(key).saturating_add(block))
            }
            _ => Wanted::Growth,
        }
    }

    /// Returns the word that encodes it, which is 2 or more.
    fn word(self) -> u64 {
        match self {
            Wanted::Size(size) => size.max(CHUNK_HEAD),
            Wanted::Growth => GROWTH,
        }
    }
}

/// The words for: nothing was refused since the last report; what was refused is reported; an item
/// that grows was refused.
///
/// A greater word is the size of a refused item.
const NOTHING: u64 = 0;

const TOLD: u64 = 1;

const GROWTH: u64 = 2;

/// The first refusal since the last report. Each later one costs a load.
#[derive(Drop)]
pub struct Shortage {
    word: AtomicU64,
}

impl Shortage {
    /// Returns the state without a refusal.
    pub fn new() -> Shortage {
        Shortage {
            word: AtomicU64::new(NOTHING),
        }
    }

    /// Notes a refused step, and returns whether it is to be reported.
    pub fn note(&self, step: &KeyStep<'_>) -> bool {
        if self.word.load(Ordering::SeqCst) != NOTHING {
            return false;
        }
        let word = Wanted::of(step).word();
        self.word
            .compare_exchange(NOTHING, word, Ordering::SeqCst, Ordering::SeqCst)
            .is_ok()
    }

    /// Takes the unreported refusal, if any.
    pub fn take(&self) -> Option<Wanted> {
        let wanted = match self.word.load(Ordering::SeqCst) {
            NOTHING | TOLD => return None,
            GROWTH => Wanted::Growth,
            size => Wanted::Size(size),
        };
        self.word.store(TOLD, Ordering::SeqCst);
        Some(wanted)
    }

    /// Lets the next refused step be reported.
    pub fn reopen(&self) {
        self.word.store(NOTHING, Ordering::SeqCst);
    }
}

/// A tally that wakes the logger at the first step that is refused for want of a chunk.
#[derive(Clone, Copy)]
pub struct ShortageTally<'a> {
    log: &'a Log,
}

impl<'a> ShortageTally<'a> {
    /// Returns a tally that reports to this log.
    pub fn new(log: &'a Log) -> ShortageTally<'a> {
        ShortageTally { log }
    }
}

impl Tally for ShortageTally<'_> {
    fn took(&self, step: &KeyStep<'_>, outcome: Outcome) {
        if let Outcome::NoChunk = outcome {
            self.log.note_refused(step);
        }
    }
}
