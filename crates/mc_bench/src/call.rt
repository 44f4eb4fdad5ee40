//! Random calls, and their lines in a record.
ghost use Rattle.std.specs.Prelude.{◌≤◌, ◌<◌, length, IfOk, IfSome};
ghost use Rattle.mc_protocol.specs.Commands.{key_of};

use mc_protocol::{Bytes, KeyStep, Reply, Verb};
use mc_testing::Dice;
use std::alloc::{AllocError, Global};

/// The number of keys.
pub const KEYS: usize = 8;

/// The kind of a call.
#[derive(Clone, Copy)]
pub enum Word {
    Set,
    Add,
    Replace,
    Append,
    Prepend,
    Cas,
    Get,
    Gat,
    Touch,
    Delete,
    Incr,
    Decr,
    Flush,
    Tidy,
}

/// A call. Fields that its kind doesn't use are there all the same, and mean nothing.
#[derive(Drop)]
pub struct Call {
    pub word: Word,
    /// The index of the key.
    pub key: usize,
    pub flags: u32,
    pub exptime: i64,
    /// A unique number, a delta, or a delay in seconds.
    pub number: u64,
    pub block: String,
}

/// Draws a call.
///
/// Its block is the mark, which no other call has, or one of a few. Its number may be one that its
/// caller read of the key.
pub fn draw_call(
    alloc: Global,
    dice: &mut Dice,
    mark: u64,
    seen: &[u64; KEYS],
) -> Result<Call, AllocError>
    ensures { IfOk result (λ call. call.key < 8) }
{
    let word = word_drawn(dice);
    let key = key_drawn(dice);
    let number = match word {
        Word::Cas if dice.roll(4) > 0 => seen[key],
        Word::Flush => dice.roll(2) * 100,
        _ => dice.roll(200),
    };
    let flags = dice.roll(1 << 32) as u32;
    let exptime = exptime_drawn(dice);
    let block = block_drawn(alloc, dice, mark)?;
    Ok(Call {
        word,
        key,
        flags,
        exptime,
        number,
        block,
    })
}

/// Draws the kind of a call.
fn word_drawn(dice: &mut Dice) -> Word {
    match dice.roll(200) {
        0..=27 => Word::Set,
        28..=41 => Word::Add,
        42..=55 => Word::Replace,
        56..=67 => Word::Append,
        68..=79 => Word::Prepend,
        80..=107 => Word::Cas,
        108..=147 => Word::Get,
        148..=157 => Word::Gat,
        158..=165 => Word::Touch,
        166..=177 => Word::Delete,
        178..=187 => Word::Incr,
        188..=197 => Word::Decr,
        198 => Word::Flush,
        _ => Word::Tidy,
    }
}

/// Draws the index of a key.
fn key_drawn(dice: &mut Dice) -> usize
    ensures { result < 8 }
{
    dice.roll(KEYS as u64) as usize
}

/// Draws an exptime: mostly none, seldom one that is past, and else one that never comes.
fn exptime_drawn(dice: &mut Dice) -> i64 {
    match dice.roll(20) {
        0 => -1,
        1..=4 => 100,
        _ => 0,
    }
}

/// Draws a block.
fn block_drawn(alloc: Global, dice: &mut Dice, mark: u64) -> Result<String, AllocError> {
    match dice.roll(8) {
        0 => format!(in alloc; ""),
        1 => format!(in alloc; "18446744073709551615"),
        2..=4 => format!(in alloc; "{mark}"),
        _ => format!(in alloc; "{mark}x"),
    }
}

impl Call {
    ghost use Rattle.mc_protocol.specs.Commands.{longest_key};

    /// Returns a get of this key.
    pub fn get(alloc: Global, key: usize) -> Call {
        Call {
            word: Word::Get,
            key,
            flags: 0,
            exptime: 0,
            number: 0,
            block: String::new(alloc),
        }
    }

    /// Returns the key of the call. Each two of the eight keys are on one shelf.
    pub fn key(&self) -> &'static str
        ensures { length result.now ≤ longest_key }
    {
        match self.key {
            0 => "a",
            1 => "ba",
            2 => "b",
            3 => "bb",
            4 => "c",
            5 => "bc",
            6 => "d",
            _ => "bd",
        }
    }

    /// Returns the step of the call, or `None` for tidying.
    pub fn step(&self) -> Option<KeyStep<'_>>
        ensures { IfSome result (λ step. length (key_of step) ≤ longest_key) }
    {
        let key = Bytes::of(self.key().as_bytes());
        let exptime = self.exptime;
        Some(match self.word {
            Word::Set => self.stores(Verb::Set),
            Word::Add => self.stores(Verb::Add),
            Word::Replace => self.stores(Verb::Replace),
            Word::Append => self.stores(Verb::Append),
            Word::Prepend => self.stores(Verb::Prepend),
            Word::Cas => KeyStep::Cas {
                key,
                flags: self.flags,
                exptime,
                block: Bytes::of(self.block.as_bytes()),
                unique: self.number,
            },
            Word::Get => KeyStep::Read { key },
            Word::Gat => KeyStep::ReadTouch { key, exptime },
            Word::Touch => KeyStep::Touch { key, exptime },
            Word::Delete => KeyStep::Delete { key },
            Word::Incr => self.counts(true),
            Word::Decr => self.counts(false),
            Word::Flush => KeyStep::Flush { delay: self.number },
            Word::Tidy => return None,
        })
    }

    /// Returns the step of a storage command.
    fn stores(&self, verb: Verb) -> KeyStep<'_>
        ensures { length (key_of result) ≤ longest_key }
    {
        KeyStep::Store {
            verb,
            key: Bytes::of(self.key().as_bytes()),
            flags: self.flags,
            exptime: self.exptime,
            block: Bytes::of(self.block.as_bytes()),
        }
    }

    /// Returns the step of incr or decr.
    fn counts(&self, up: bool) -> KeyStep<'_>
        ensures { length (key_of result) ≤ longest_key }
    {
        KeyStep::Count {
            key: Bytes::of(self.key().as_bytes()),
            up,
            by: self.number,
        }
    }

    /// Returns whether the record has a line of it.
    ///
    /// While the clock stands, no reply shows tidying, nor a flush that is to come.
    pub fn has_line(&self) -> bool {
        match self.word {
            Word::Tidy => false,
            Word::Flush => self.number == 0,
            _ => true,
        }
    }

    /// Writes the call as in a line of a record: its kind and its fields.
    pub fn tell(&self, told: &mut String) -> Result<(), AllocError> {
        let (word, key) = (name_of(self.word), self.key());
        let (flags, exptime, number) = (self.flags, self.exptime, self.number);
        match self.word {
            Word::Get | Word::Delete => write!(told, "{word} {key}"),
            Word::Gat | Word::Touch => write!(told, "{word} {key} {exptime}"),
            Word::Incr | Word::Decr => write!(told, "{word} {key} {number}"),
            Word::Flush | Word::Tidy => write!(told, "{word}"),
            Word::Cas => {
                write!(told, "{word} {key} {flags} {exptime} {number} ")?;
                tell_block(told, self.block.as_bytes())
            }
            _ => {
                write!(told, "{word} {key} {flags} {exptime} ")?;
                tell_block(told, self.block.as_bytes())
            }
        }
    }
}

/// Returns the name of a kind.
fn name_of(word: Word) -> &'static str {
    match word {
        Word::Set => "set",
        Word::Add => "add",
        Word::Replace => "replace",
        Word::Append => "append",
        Word::Prepend => "prepend",
        Word::Cas => "cas",
        Word::Get => "get",
        Word::Gat => "gat",
        Word::Touch => "touch",
        Word::Delete => "delete",
        Word::Incr => "incr",
        Word::Decr => "decr",
        Word::Flush => "flush",
        Word::Tidy => "tidy",
    }
}

/// Writes a reply as in a line of a record.
pub fn tell_reply(told: &mut String, reply: &Reply) -> Result<(), AllocError> {
    match reply {
        Reply::Hit {
            flags,
            unique,
            block,
        } => {
            write!(told, "HIT {flags} {unique} ")?;
            tell_block(told, block.bytes())
        }
        Reply::Number(number) => write!(told, "NUMBER {number}"),
        Reply::Stored => write!(told, "STORED"),
        Reply::NotStored => write!(told, "NOT_STORED"),
        Reply::Exists => write!(told, "EXISTS"),
        Reply::NotFound => write!(told, "NOT_FOUND"),
        Reply::Miss => write!(told, "MISS"),
        Reply::Touched => write!(told, "TOUCHED"),
        Reply::Deleted => write!(told, "DELETED"),
        Reply::NotNumeric => write!(told, "NOT_NUMERIC"),
        Reply::TooLarge => write!(told, "TOO_LARGE"),
        Reply::NoChunk => write!(told, "NO_CHUNK"),
        Reply::Flushed => write!(told, "FLUSHED"),
    }
}

/// Writes a block as in a line of a record: `=`, and then its bytes.
///
/// Bytes other than letters and signs of ASCII are `%` and two digits.
fn tell_block(told: &mut String, block: &[u8]) -> Result<(), AllocError> {
    write!(told, "=")?;
    for byte in block {
        if byte.is_ascii_graphic() && *byte != b'%' {
            write!(told, "{}", char::from(*byte))?;
        } else {
            write!(told, "%{byte:02x}")?;
        }
    }
    Ok(())
}
