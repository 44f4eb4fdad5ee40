//! Decimal numbers, and counting them up and down.

ghost use Rattle.std.specs.Prelude.{◌≡◌, length};
ghost use Rattle.std.specs.List.{take_while, list_all};
ghost use Rattle.std.specs.Char.{is_ascii_digit};
ghost use Rattle.mc_protocol.specs.Words.{is_space};
ghost use Rattle.mc_protocol.specs.Numbers.{number_up_to};
ghost use Rattle.mc_protocol.specs.Plain.{number_of, counted};

/// Returns the number that decimal digits write, or `None`.
///
/// It is `None` without a digit, with any other byte, and above `limit`. Leading zeros are allowed.
/// The cost grows with the length.
pub fn number_up_to(limit: u64, word: &[u8]) -> Option<u64>
    ensures { result ≡ number_up_to limit word.now }
{
    if word.is_empty() {
        return None;
    }
    let mut number: u64 = 0;
    for byte in word {
        if !byte.is_ascii_digit() {
            return None;
        }
        number = number
            .checked_mul(10)?
            .checked_add(u64::from(*byte - b'0'))?;
    }
    if number <= limit { Some(number) } else { None }
}

/// Returns the number that a block is, or `None`.
///
/// A number is 1 to 20 digits of a value below 2^64, and then any number of spaces. The cost grows
/// with the length.
pub fn number_of(block: &[u8]) -> Option<u64>
    ensures { result ≡ number_of block.now }
{
    let (digits, rest) = block.split_at(digits_len(block));
    if digits.len() <= 20 && is_blank(rest) {
        number_up_to(u64::MAX, digits)
    } else {
        None
    }
}

/// Returns how many digits a text begins with.
fn digits_len(text: &[u8]) -> usize
    ensures { result ≡ length (take_while is_ascii_digit text.now) }
{
    text.iter().take_while(|byte| byte.is_ascii_digit()).count()
}

/// Returns whether a text has only spaces.
fn is_blank(text: &[u8]) -> bool
    ensures { result ≡ list_all is_space text.now }
{
    text.iter().all(|byte| *byte == b' ')
}

/// Returns the number that incr or decr makes of `old` (protocol.txt, "Increment/Decrement").
///
/// Incr wraps at 2^64, decr stops at 0.
pub fn count_up_or_down(up: bool, by: u64, old: u64) -> u64
    ensures { result ≡ counted up by old }
{
    if up {
        old.wrapping_add(by)
    } else {
        old.saturating_sub(by)
    }
}
