//! Commands, and the steps that each one consists of.
//!
//! `CommandOf<K, L, B>` is a command over three ways of keeping its key, its keys and its block:
//! lent (`Command`), as places in a line (`Noted` of mc_parse), and in specs as bytes.

ghost use Rattle.std.specs.Prelude.{◌≡◌, ◌<◌, [], ◌∷◌, length, slice_get};
ghost use Rattle.mc_protocol.specs.Commands.{steps, is_quiet, HasBlock, IsSingle};

use crate::bytes::Bytes;
use crate::keys::Keys;
use crate::lone::Lone;
use crate::step::{KeyStep, Verb};
use std::alloc::AllocError;

/// A command, generic over how its key, the keys of a retrieval and its block are kept.
///
/// A quiet command ended in `noreply`.
#[derive(Drop)]
pub enum CommandOf<K, L, B> {
    /// set, add, replace, append, prepend
    Store {
        verb: Verb,
        key: K,
        flags: u32,
        exptime: i64,
        block: B,
        quiet: bool,
    },
    /// cas
    Cas {
        key: K,
        flags: u32,
        exptime: i64,
        block: B,
        unique: u64,
        quiet: bool,
    },
    /// get, gets
    Get {
        keys: L,
        with_unique: bool,
    },
    /// gat, gats
    GetTouch {
        exptime: i64,
        keys: L,
        with_unique: bool,
    },
    /// touch
    Touch {
        key: K,
        exptime: i64,
        quiet: bool,
    },
    /// delete
    Delete {
        key: K,
        quiet: bool,
    },
    /// incr, decr
    Count {
        key: K,
        up: bool,
        by: u64,
        quiet: bool,
    },
    /// flush_all; without a delay it is 0
    FlushAll {
        delay: u64,
        quiet: bool,
    },
    /// version, quit
    Lone(Lone),
}

// By hand: a derived one takes each variant apart.
impl<K: Copy, L: Copy, B: Copy> Clone for CommandOf<K, L, B> {
    ghost is_clone = { λ x y. y ≡ x };

    ghost is_infallible = { λ _. Unit {0} };

    fn clone(&self) -> Result<CommandOf<K, L, B>, AllocError> {
        Ok(*self)
    }
}

impl<K: Copy, L: Copy, B: Copy> Copy for CommandOf<K, L, B> {}

/// A key's place in a text.
pub trait KeyPlace {
    ghost use Rattle.std.specs.Prelude.{◌≡◌, ℕ, List};

    /// The bytes at the place in a text.
    ghost bytes: { Self → (text : List ℕ) → List ℕ };

    /// Lends the bytes, as far as the text has them.
    fn lend<'a>(&self, text: &'a [u8]) -> Bytes<'a>
        ensures { result ≡ bytes self.now text.now };
}

/// The place of a retrieval's keys in a text.
pub trait KeysPlace {
    ghost use Rattle.std.specs.Prelude.{◌≡◌, ℕ, List};

    /// The keys at the place in a text.
    ghost keys: { Self → (text : List ℕ) → List (List ℕ) };
    /// The text has the place, and the keys there are counted right.
    ghost fits: { Self → (text : List ℕ) → Type 0 };

    /// Lends the keys. It reads none of them.
    fn lend<'a>(&self, text: &'a [u8]) -> Keys<'a>
        requires { fits self.now text.now }
        ensures { result ≡ keys self.now text.now };
}

impl<K: KeyPlace + Copy, L: KeysPlace + Copy, B: Copy> CommandOf<K, L, B> {
    ghost use Rattle.std.specs.Prelude.{◌≡◌, None, IfSome};
    ghost use Rattle.mc_protocol.specs.Commands.{block_in, mapped, retrieval_in};

    /// Returns the command with the keys of a text, and with a block if it has one.
    #[inline]
    pub fn lend<'a>(&self, text: &'a [u8], block: Bytes<'a>) -> Command<'a>
        requires { IfSome (retrieval_in self.now) (λ asked. L.fits asked.1 text.now) }
        ensures { result ≡ mapped (λ key. K.bytes key text.now) (λ keys. L.keys keys text.now)
            (λ _. block.entry) self.now }
    {
        match *self {
            CommandOf::Store { .. } | CommandOf::Cas { .. } => self.lend_stored(text, block),
            CommandOf::Get { keys, with_unique } => CommandOf::Get {
                keys: keys.lend(text),
                with_unique,
            },
            CommandOf::GetTouch {
                exptime,
                keys,
                with_unique,
            } => CommandOf::GetTouch {
                exptime,
                keys: keys.lend(text),
                with_unique,
            },
            CommandOf::Touch {
                key,
                exptime,
                quiet,
            } => CommandOf::Touch {
                key: key.lend(text),
                exptime,
                quiet,
            },
            CommandOf::Delete { key, quiet } => CommandOf::Delete {
                key: key.lend(text),
                quiet,
            },
            CommandOf::Count { key, up, by, quiet } => CommandOf::Count {
                key: key.lend(text),
                up,
                by,
                quiet,
            },
            CommandOf::FlushAll { delay, quiet } => CommandOf::FlushAll { delay, quiet },
            CommandOf::Lone(lone) => CommandOf::Lone(lone),
        }
    }

    /// Returns a command with a block as `lend` does.
    #[inline]
    fn lend_stored<'a>(&self, text: &'a [u8], block: Bytes<'a>) -> Command<'a>
        requires { block_in self.now ≡ None → ⊥ }
        ensures { result ≡ mapped (λ key. K.bytes key text.now) (λ keys. L.keys keys text.now)
            (λ _. block.entry) self.now }
    {
        match *self {
            CommandOf::Store {
                verb,
                key,
                flags,
                exptime,
                quiet,
                ..
            } => CommandOf::Store {
                verb,
                key: key.lend(text),
                flags,
                exptime,
                block,
                quiet,
            },
            CommandOf::Cas {
                key,
                flags,
                exptime,
                unique,
                quiet,
                ..
            } => CommandOf::Cas {
                key: key.lend(text),
                flags,
                exptime,
                block,
                unique,
                quiet,
            },
            _ => unreachable!(),
        }
    }
}

/// A command whose keys and block are slices of the input.
pub type Command<'a> = CommandOf<Bytes<'a>, Keys<'a>, Bytes<'a>>;

/// Returns the number of steps of a command.
///
/// A retrieval has one for each key, a command that is only a name has none, and every other has
/// one.
pub fn steps_of(command: &Command<'_>) -> usize
    ensures { result ≡ length (steps command.now) }
{
    match command {
        Command::Get { keys, .. } | Command::GetTouch { keys, .. } => keys.len(),
        Command::Lone(_) => 0,
        _ => 1,
    }
}

/// Returns whether a command ended in `noreply`.
pub fn is_quiet(command: &Command<'_>) -> bool
    ensures { result ≡ is_quiet command.now }
{
    match command {
        Command::Store { quiet, .. }
        | Command::Cas { quiet, .. }
        | Command::Touch { quiet, .. }
        | Command::Delete { quiet, .. }
        | Command::Count { quiet, .. }
        | Command::FlushAll { quiet, .. } => *quiet,
        Command::Get { .. } | Command::GetTouch { .. } | Command::Lone(_) => false,
    }
}

/// Returns step `at` of a command, counted from 0.
pub fn step_at<'a>(command: &Command<'a>, at: usize) -> KeyStep<'a>
    requires { at < length (steps command.now) }
    ensures { slice_get (steps command.now) at ≡ Some result }
{
    match command {
        Command::Get { keys, .. } => KeyStep::Read {
            key: key_at(keys, at),
        },
        Command::GetTouch { exptime, keys, .. } => KeyStep::ReadTouch {
            key: key_at(keys, at),
            exptime: *exptime,
        },
        _ => only_step(command),
    }
}

/// Returns key `at` of a retrieval, counted from 0. It must have that key.
fn key_at<'a>(keys: &Keys<'a>, at: usize) -> Bytes<'a>
    requires { at < length keys.now }
    ensures { slice_get keys.now at ≡ Some result }
{
    match keys.get(at) {
        Some(key) => Bytes::of(key),
        None => unreachable!(),
    }
}

/// Returns the step of a command that has just one.
fn only_step<'a>(command: &Command<'a>) -> KeyStep<'a>
    requires { IsSingle command.now }
    ensures { steps command.now ≡ result ∷ [] }
{
    match command {
        Command::Store { .. } | Command::Cas { .. } => block_step(command),
        Command::Touch { key, exptime, .. } => KeyStep::Touch {
            key: Bytes::of(key.as_slice()),
            exptime: *exptime,
        },
        Command::Delete { key, .. } => KeyStep::Delete {
            key: Bytes::of(key.as_slice()),
        },
        Command::Count { key, up, by, .. } => KeyStep::Count {
            key: Bytes::of(key.as_slice()),
            up: *up,
            by: *by,
        },
        Command::FlushAll { delay, .. } => KeyStep::Flush { delay: *delay },
        Command::Get { .. } | Command::GetTouch { .. } | Command::Lone(_) => unreachable!(),
    }
}

/// Returns the step of a command with a block.
fn block_step<'a>(command: &Command<'a>) -> KeyStep<'a>
    requires { HasBlock command.now }
    ensures { steps command.now ≡ result ∷ [] }
{
    match command {
        Command::Store {
            verb,
            key,
            flags,
            exptime,
            block,
            ..
        } => KeyStep::Store {
            verb: *verb,
            key: Bytes::of(key.as_slice()),
            flags: *flags,
            exptime: *exptime,
            block: block.again(),
        },
        Command::Cas {
            key,
            flags,
            exptime,
            block,
            unique,
            ..
        } => KeyStep::Cas {
            key: Bytes::of(key.as_slice()),
            flags: *flags,
            exptime: *exptime,
            block: block.again(),
            unique: *unique,
        },
        _ => unreachable!(),
    }
}
