//! The grammar of lines: one function for each command.

ghost use Rattle.std.specs.Prelude.{◌≡◌, ◌-◌, ◌^◌, ℕ, List, [], ◌∷◌, Ok, Err};
ghost use Rattle.std.specs.Result.{IfOk, MatchResult};
ghost use Rattle.mc_protocol.specs.Words.{words, EndsIn};
ghost use Rattle.mc_protocol.specs.Numbers.{number_up_to};
ghost use Rattle.mc_protocol.specs.declared.fault.LineFault.TheVariants.{Unknown, BadFormat};
ghost use Rattle.mc_parse.specs.Exptimes.{exptime_of};
ghost use Rattle.mc_parse.specs.Notes.{at, keys_at, said, FitIn, Fits};
ghost use Rattle.mc_parse.specs.Lines.{meaning, formed, key_formed, keys_formed, ending};
ghost use Rattle.mc_parse.specs.Lines.{delete_ending, fitting, store_line, cas_line, get_line};
ghost use Rattle.mc_parse.specs.Lines.{get_touch_line, touch_line, delete_line, count_line};
ghost use Rattle.mc_parse.specs.Lines.{flush_line, lone_line, is_key};

use crate::exptime::{delay_of, exptime_of};
use crate::name::{Name, name_of};
use crate::note::{KeySpan, Noted, Span};
use mc_protocol::{
    CHUNK_HEAD, CommandOf, Keys, LONGEST_KEY, LineFault, Lone, Verb, Words, first_key, first_word,
    number_up_to, spaces_len,
};

/// The longest block, in bytes.
const LONGEST_BLOCK: u64 = 2147483645;

/// Returns the command of a line, or the line's first fault. `text` is the line without its end.
pub fn line_of(greatest: u64, text: &[u8]) -> Result<Noted, LineFault>
    ensures said { said text.now result ≡ meaning greatest (words text.now) }
    ensures fits { IfOk result (λ noted. Fits noted text.now) }
{
    let (name, args) = next_word(text)?;
    match name_of(name).ok_or(LineFault::Unknown)? {
        Name::Store(verb) => store_line(greatest, verb, text, args),
        Name::Cas => cas_line(greatest, text, args),
        Name::Get { with_unique } => get_line(with_unique, text, args),
        Name::GetTouch { with_unique } => get_touch_line(with_unique, text, args),
        Name::Touch => touch_line(text, args),
        Name::Delete => delete_line(text, args),
        Name::Count { up } => count_line(up, text, args),
        Name::FlushAll => flush_line(args),
        Name::Lone(lone) => lone_line(lone, args),
    }
}

/// Reads `<key> <flags> <exptime> <bytes> [noreply]`.
fn store_line(greatest: u64, verb: Verb, text: &[u8], args: &[u8]) -> Result<Noted, LineFault>
    requires { EndsIn text.now args.now }
    ensures said { said text.now result ≡ store_line greatest verb (words args.now) }
    ensures fits { IfOk result (λ noted. Fits noted text.now) }
{
    let (word, rest) = next_key(args)?;
    let (flags, rest) = next_word(rest)?;
    let (exptime, rest) = next_word(rest)?;
    let (bytes, rest) = next_word(rest)?;
    let quiet = ending(rest)?;
    let key = key_formed(text, args, word)?;
    let flags = flags_formed(flags)?;
    let exptime = exptime_formed(exptime)?;
    let len = bytes_formed(bytes)?;
    Ok(CommandOf::Store {
        verb,
        key,
        flags,
        exptime,
        block: check_charge(greatest, word, len)?,
        quiet,
    })
}

/// Reads `<key> <flags> <exptime> <bytes> <cas unique> [noreply]`.
fn cas_line(greatest: u64, text: &[u8], args: &[u8]) -> Result<Noted, LineFault>
    requires { EndsIn text.now args.now }
    ensures said { said text.now result ≡ cas_line greatest (words args.now) }
    ensures fits { IfOk result (λ noted. Fits noted text.now) }
{
    let (word, rest) = next_key(args)?;
    let (flags, rest) = next_word(rest)?;
    let (exptime, rest) = next_word(rest)?;
    let (bytes, rest) = next_word(rest)?;
    let (unique, rest) = next_word(rest)?;
    let quiet = ending(rest)?;
    let key = key_formed(text, args, word)?;
    let flags = flags_formed(flags)?;
    let exptime = exptime_formed(exptime)?;
    let len = bytes_formed(bytes)?;
    let unique = number_up_to(u64::MAX, unique).ok_or(LineFault::BadFormat)?;
    Ok(CommandOf::Cas {
        key,
        flags,
        exptime,
        block: check_charge(greatest, word, len)?,
        unique,
        quiet,
    })
}

/// Reads `<key>*`, at least one.
fn get_line(with_unique: bool, text: &[u8], args: &[u8]) -> Result<Noted, LineFault>
    requires { EndsIn text.now args.now }
    ensures said { said text.now result ≡ get_line with_unique (words args.now) }
    ensures fits { IfOk result (λ noted. Fits noted text.now) }
{
    let keys = keys_noted(text, args)?;
    Ok(CommandOf::Get { keys, with_unique })
}

/// Reads `<exptime> <key>*`, at least one key.
fn get_touch_line(with_unique: bool, text: &[u8], args: &[u8]) -> Result<Noted, LineFault>
    requires { EndsIn text.now args.now }
    ensures said { said text.now result ≡ get_touch_line with_unique (words args.now) }
    ensures fits { IfOk result (λ noted. Fits noted text.now) }
{
    let (exptime, rest) = next_word(args)?;
    let keys = keys_noted(text, rest)?;
    let exptime = exptime_formed(exptime)?;
    Ok(CommandOf::GetTouch {
        exptime,
        keys,
        with_unique,
    })
}

/// Reads `<key> <exptime> [noreply]`.
fn touch_line(text: &[u8], args: &[u8]) -> Result<Noted, LineFault>
    requires { EndsIn text.now args.now }
    ensures said { said text.now result ≡ touch_line (words args.now) }
    ensures fits { IfOk result (λ noted. Fits noted text.now) }
{
    let (word, rest) = next_key(args)?;
    let (exptime, rest) = next_word(rest)?;
    let quiet = ending(rest)?;
    let key = key_formed(text, args, word)?;
    let exptime = exptime_formed(exptime)?;
    Ok(CommandOf::Touch {
        key,
        exptime,
        quiet,
    })
}

/// Reads `<key> [0] [noreply]`.
fn delete_line(text: &[u8], args: &[u8]) -> Result<Noted, LineFault>
    requires { EndsIn text.now args.now }
    ensures said { said text.now result ≡ delete_line (words args.now) }
    ensures fits { IfOk result (λ noted. Fits noted text.now) }
{
    let (word, rest) = next_key(args)?;
    let quiet = delete_ending(rest)?;
    let key = key_formed(text, args, word)?;
    Ok(CommandOf::Delete { key, quiet })
}

/// Reads `<key> <value> [noreply]`.
fn count_line(up: bool, text: &[u8], args: &[u8]) -> Result<Noted, LineFault>
    requires { EndsIn text.now args.now }
    ensures said { said text.now result ≡ count_line up (words args.now) }
    ensures fits { IfOk result (λ noted. Fits noted text.now) }
{
    let (word, rest) = next_key(args)?;
    let (value, rest) = next_word(rest)?;
    let quiet = ending(rest)?;
    let key = key_formed(text, args, word)?;
    let by = number_up_to(u64::MAX, value).ok_or(LineFault::BadDelta)?;
    Ok(CommandOf::Count { key, up, by, quiet })
}

/// Reads `[delay] [noreply]`.
fn flush_line(args: &[u8]) -> Result<Noted, LineFault>
    ensures said { (text : List ℕ) → said text result ≡ flush_line (words args.now) }
    ensures fits { (text : List ℕ) → IfOk result (λ noted. Fits noted text) }
{
    let Some((word, rest)) = first_word(args) else {
        return Ok(CommandOf::FlushAll {
            delay: 0,
            quiet: false,
        });
    };
    let quiet = ending(rest)?;
    // If there are two words the first is the delay, even if it is `noreply`.
    if !quiet && word == b"noreply".as_slice() {
        return Ok(CommandOf::FlushAll {
            delay: 0,
            quiet: true,
        });
    }
    let delay = delay_of(word).ok_or(LineFault::BadFormat)?;
    Ok(CommandOf::FlushAll { delay, quiet })
}

/// Reads the line of a command that is only a name.
fn lone_line(lone: Lone, args: &[u8]) -> Result<Noted, LineFault>
    ensures said { (text : List ℕ) → said text result ≡ lone_line lone (words args.now) }
    ensures fits { (text : List ℕ) → IfOk result (λ noted. Fits noted text) }
{
    match first_word(args) {
        None => Ok(CommandOf::Lone(lone)),
        Some(_) => Err(LineFault::Unknown),
    }
}

/// Returns the next word, which must be there, and what follows it.
fn next_word(text: &[u8]) -> Result<(&[u8], &[u8]), LineFault>
    ensures { MatchResult result
        (λ p. (words text.now ≡ p.0.now ∷ words p.1.now) × EndsIn text.now p.1.now)
        (λ fault. (fault ≡ Unknown) × (words text.now ≡ [])) }
{
    first_word(text).ok_or(LineFault::Unknown)
}

/// Returns the next key, which must be there, and what follows it.
fn next_key(text: &[u8]) -> Result<(&[u8], &[u8]), LineFault>
    ensures { MatchResult result
        (λ p. words text.now ≡ p.0.now ∷ words p.1.now)
        (λ fault. (fault ≡ Unknown) × (words text.now ≡ [])) }
{
    first_key(text).ok_or(LineFault::Unknown)
}

/// Reads the end of a line, and returns whether it is `noreply`. It may also be empty.
fn ending(args: &[u8]) -> Result<bool, LineFault>
    ensures { result ≡ ending (words args.now) }
{
    match first_word(args) {
        None => Ok(false),
        Some((word, rest)) => noreply(word, rest),
    }
}

/// Reads the end of a delete's line as `ending` does. A 0 may come first.
fn delete_ending(args: &[u8]) -> Result<bool, LineFault>
    ensures { result ≡ delete_ending (words args.now) }
{
    match first_word(args) {
        None => Ok(false),
        Some((word, rest)) if word == b"0".as_slice() => ending(rest),
        Some((word, rest)) => noreply(word, rest),
    }
}

/// Reads the last word, which must be `noreply`.
fn noreply(word: &[u8], rest: &[u8]) -> Result<bool, LineFault>
    ensures { result ≡ ending (word.now ∷ words rest.now) }
{
    if word == b"noreply".as_slice() && first_word(rest).is_none() {
        Ok(true)
    } else {
        Err(LineFault::Unknown)
    }
}

/// Returns the length `len` of a block, unless its item's charge would be above `greatest`.
fn check_charge(greatest: u64, key: &[u8], len: u32) -> Result<u32, LineFault>
    ensures { result ≡ fitting greatest key.now len }
{
    let len_wide = u64::from(len);
    if CHUNK_HEAD + key.len() as u64 + len_wide <= greatest {
        Ok(len)
    } else {
        Err(LineFault::TooLarge {
            passed: len_wide + 2,
        })
    }
}

/// Returns the place of the key that the arguments begin with.
fn key_formed(text: &[u8], args: &[u8], key: &[u8]) -> Result<Span, LineFault>
    requires tail { EndsIn text.now args.now }
    requires first { (more : List (List ℕ)) × (words args.now ≡ key.now ∷ more) }
    ensures { MatchResult result
        (λ span. (key_formed key.now ≡ Ok key.now) × (at text.now span ≡ key.now))
        (λ fault. key_formed key.now ≡ Err fault) }
{
    if !is_key(key) {
        return Err(LineFault::BadFormat);
    }
    Ok(Span::new(text.len() - args.len() + spaces_len(args), key.len()))
}

/// Returns the place of the keys, the words of the arguments. There must be at least one.
fn keys_noted(text: &[u8], args: &[u8]) -> Result<KeySpan, LineFault>
    requires { EndsIn text.now args.now }
    ensures { MatchResult result
        (λ keys. (keys_formed (words args.now) ≡ Ok (keys_at text.now keys)) × FitIn keys text.now)
        (λ fault. keys_formed (words args.now) ≡ Err fault) }
{
    let keys = keys_formed(args)?;
    Ok(KeySpan {
        from: text.len() - args.len(),
        count: keys.len(),
    })
}

/// Returns the keys that are the words of a text. There must be at least one.
///
/// They are checked and counted in one pass.
fn keys_formed(text: &[u8]) -> Result<Keys<'_>, LineFault>
    ensures { result ≡ keys_formed (words text.now) }
{
    let mut count: usize = 0;
    for word in Words::of(text) {
        if !is_key(word) {
            return Err(LineFault::BadFormat);
        }
        count += 1;
    }
    if count == 0 {
        return Err(LineFault::Unknown);
    }
    Ok(Keys::with_count(text, count))
}

/// Returns whether a word is a key.
///
/// A word of a line has no space and no line feed, so only its length is checked.
fn is_key(word: &[u8]) -> bool
    ensures { result ≡ is_key word.now }
{
    !word.is_empty() && word.len() <= LONGEST_KEY
}

/// Reads flags, a number below 2^32.
fn flags_formed(word: &[u8]) -> Result<u32, LineFault>
    ensures { result ≡ formed BadFormat (number_up_to (2 ^ 32 - 1) word.now) }
{
    match number_up_to(u64::from(u32::MAX), word) {
        Some(flags) => Ok(flags as u32),
        None => Err(LineFault::BadFormat),
    }
}

/// Reads the length of a block.
fn bytes_formed(word: &[u8]) -> Result<u32, LineFault>
    ensures { result ≡ formed BadFormat (number_up_to 2147483645 word.now) }
{
    match number_up_to(LONGEST_BLOCK, word) {
        Some(len) => Ok(len as u32),
        None => Err(LineFault::BadFormat),
    }
}

/// Reads an exptime.
fn exptime_formed(word: &[u8]) -> Result<i64, LineFault>
    ensures { result ≡ formed BadFormat (exptime_of word.now) }
{
    exptime_of(word).ok_or(LineFault::BadFormat)
}
