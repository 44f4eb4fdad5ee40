//! Options of memcached that are accepted and change nothing here.
//!
//! Each asks for what the server does anyway, or tunes a part that it doesn't have. The server's
//! first line names those that were given.

use crate::served::{Operand, Served, Value, argument_of};
use crate::value::ValueKind;
use clap::{ArgMatches, Command};
use std::alloc::{AllocError, Global};
use std::fmt::{self, Display, Formatter};

/// The ignored options of a command line.
#[derive(Drop)]
pub struct Ignored {
    /// Their letters, each once.
    pub letters: Vec<char>,
}

/// The largest number of an ignored option.
const MOST: u64 = 2_147_483_647;

/// A number of an ignored option.
const NUMBER: Value = Value {
    name: "N",
    kind: ValueKind::Number(1, MOST),
    rule: "a number, 1 to 2147483647, which changes nothing here",
};

/// A factor of an ignored option.
const FACTOR: Value = Value {
    name: "FACTOR",
    kind: ValueKind::Text,
    rule: "a number, which changes nothing here",
};

/// A protocol that is spoken.
const PROTOCOL: Value = Value {
    name: "PROTOCOL",
    kind: ValueKind::Word(PROTOCOLS),
    rule: "ascii or auto: the text protocol is the only one",
};

const PROTOCOLS: &[&str] = &["ascii", "auto"];

/// A setting of `-o`.
const SETTING: Value = Value {
    name: "SETTINGS",
    kind: ValueKind::Setting(SETTINGS),
    rule: "leave it out; in place of idle_timeout take '--idle-timeout', and '--buffer-limit' in \
place of read_buf_mem_limit (modern and what tunes lru, slabs or hashing may stay)",
};

/// The settings of `-o` that change nothing here, without their values.
const SETTINGS: &[&str] = &[
    "modern",
    "no_modern",
    "maxconns_fast",
    "slab_reassign",
    "no_slab_reassign",
    "slab_automove",
    "slab_automove_ratio",
    "slab_automove_window",
    "slab_automove_freeratio",
    "slab_chunk_max",
    "slab_sizes",
    "lru_crawler",
    "no_lru_crawler",
    "lru_crawler_sleep",
    "lru_crawler_tocrawl",
    "lru_maintainer",
    "no_lru_maintainer",
    "hot_lru_pct",
    "warm_lru_pct",
    "hot_max_factor",
    "warm_max_factor",
    "temporary_ttl",
    "tail_repair_time",
    "hashpower",
    "no_hashexpand",
    "hash_algorithm",
    "track_sizes",
    "no_inline_ascii_resp",
    "watcher_logbuf_size",
    "worker_logbuf_size",
];

/// The ignored options. They have no help.
pub const IGNORED: [Served; 11] = [
    Served {
        short: Some('o'),
        long: "extended",
        takes: Operand::Many(SETTING),
        help: "",
    },
    Served {
        short: Some('f'),
        long: "slab-growth-factor",
        takes: Operand::One(FACTOR),
        help: "",
    },
    Served {
        short: Some('n'),
        long: "slab-min-size",
        takes: Operand::One(NUMBER),
        help: "",
    },
    Served {
        short: Some('L'),
        long: "enable-largepages",
        takes: Operand::Nothing,
        help: "",
    },
    Served {
        short: Some('R'),
        long: "max-reqs-per-event",
        takes: Operand::One(NUMBER),
        help: "",
    },
    Served {
        short: Some('b'),
        long: "listen-backlog",
        takes: Operand::One(NUMBER),
        help: "",
    },
    Served {
        short: Some('B'),
        long: "protocol",
        takes: Operand::One(PROTOCOL),
        help: "",
    },
    Served {
        short: Some('C'),
        long: "disable-cas",
        takes: Operand::Nothing,
        help: "",
    },
    Served {
        short: Some('X'),
        long: "disable-dumping",
        takes: Operand::Nothing,
        help: "",
    },
    Served {
        short: Some('W'),
        long: "disable-watch",
        takes: Operand::Nothing,
        help: "",
    },
    Served {
        short: Some('N'),
        long: "napi-ids",
        takes: Operand::One(NUMBER),
        help: "",
    },
];

impl Display for Ignored {
    /// Writes `; ignored: -R, -b`, or nothing if there are none.
    fn fmt<W: fmt::Write>(&self, f: &mut Formatter<W>) -> fmt::Result {
        let mut before = "; ignored: -";
        for letter in &self.letters {
            write!(f, "{before}{letter}")?;
            before = ", -";
        }
        Ok(())
    }
}

/// Adds the options of these rows, hidden from the help.
pub fn with_ignored<'a>(
    alloc: Global,
    command: Command<'a>,
    ignored: &[Served],
) -> Result<Command<'a>, AllocError> {
    let mut command = command;
    for option in ignored {
        command = command.arg(argument_of(alloc, option)?.hide(true))?;
    }
    Ok(command)
}

/// Returns the letters of these options that are on the command line. The only error is a refused
/// allocation.
pub fn ignored_in(
    alloc: Global,
    matches: &ArgMatches<'_>,
    ignored: &[Served],
) -> Result<Ignored, AllocError> {
    let mut letters = Vec::new(alloc);
    for option in ignored {
        if let Some(letter) = option.short
            && option.is_in(matches)
        {
            letters.push(letter)?;
        }
    }
    Ok(Ignored { letters })
}
