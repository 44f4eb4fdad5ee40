//! Exptimes and delays as words.

ghost use Rattle.std.specs.Prelude.{◌≡◌};
ghost use Rattle.mc_parse.specs.Exptimes.{exptime_of, delay_of};

use mc_protocol::number_up_to;

/// Reads an exptime: a number of at most `i64::MAX`, perhaps with a minus before it.
pub fn exptime_of(word: &[u8]) -> Option<i64>
    ensures { result ≡ exptime_of word.now }
{
    match word {
        [b'-', digits @ ..] => Some(-(number_up_to(i64::MAX as u64, digits)? as i64)),
        _ => Some(number_up_to(i64::MAX as u64, word)? as i64),
    }
}

/// Reads a delay: an exptime that isn't negative.
pub fn delay_of(word: &[u8]) -> Option<u64>
    ensures { result ≡ delay_of word.now }
{
    let delay = exptime_of(word)?;
    u64::try_from(delay).ok()
}
