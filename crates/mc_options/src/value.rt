//! Which texts are fit as the value of an option.

use crate::endpoints::AskedAddress;
use crate::options::AskedPlace;
use mc_sizes::Settings;

/// Which texts are fit as the value of an option.
#[derive(Clone, Copy)]
pub enum ValueKind {
    /// A number from the first to the second.
    Number(u64, u64),
    /// The greatest charge of an item, in bytes, KiB or MiB.
    Bytes,
    /// An IP address, alone or with a port.
    Address,
    /// A port, alone or behind an IP address.
    Place,
    /// One of these words.
    Word(&'static [&'static str]),
    /// One of these names, alone or before `=` and a value.
    Setting(&'static [&'static str]),
    /// Any text.
    Text,
}

impl ValueKind {
    /// Returns whether a text is fit.
    pub fn takes(self, text: &str) -> bool {
        match self {
            ValueKind::Number(least, most) => match text.parse::<u64>() {
                Ok(number) => least <= number && number <= most,
                Err(_) => false,
            },
            ValueKind::Bytes => greatest_of(text).is_some(),
            ValueKind::Address => AskedAddress::of(text).is_some(),
            ValueKind::Place => place_of(text).is_some(),
            ValueKind::Word(words) => stands_in(words, text),
            ValueKind::Setting(names) => stands_in(names, name_of(text)),
            ValueKind::Text => true,
        }
    }
}

/// Returns whether a text is one of these words.
fn stands_in(words: &[&str], text: &str) -> bool {
    for word in words {
        if *word == text {
            return true;
        }
    }
    false
}

/// Returns what stands before the first `=`, or all.
fn name_of(text: &str) -> &str {
    match text.split_once('=') {
        Some((name, _value)) => name,
        None => text,
    }
}

/// Reads the greatest charge of an item, if it is one of 1 to 8 pages.
pub fn greatest_of(text: &str) -> Option<u64> {
    let bytes = bytes_of(text)?;
    if Settings::GREATEST <= bytes && bytes <= Settings::MOST_GREATEST {
        Some(bytes)
    } else {
        None
    }
}

/// Reads a number of bytes, or of KiB or MiB if it ends with `k` or `m`: `2097152`, `2048k`, `2m`.
fn bytes_of(text: &str) -> Option<u64> {
    if let Some(number) = text.strip_suffix('k').or(text.strip_suffix('K')) {
        return number.parse::<u64>().ok()?.checked_mul(1 << 10);
    }
    if let Some(number) = text.strip_suffix('m').or(text.strip_suffix('M')) {
        return number.parse::<u64>().ok()?.checked_mul(1 << 20);
    }
    text.parse::<u64>().ok()
}

/// Reads a port, alone or behind an address: `80`, `10.0.0.5:80`, `[::1]:80`.
pub fn place_of(text: &str) -> Option<AskedPlace> {
    if let Ok(port) = text.parse::<u16>()
        && port > 0
    {
        return Some(AskedPlace {
            address: None,
            port,
        });
    }
    let place = AskedAddress::of(text)?;
    Some(AskedPlace {
        address: Some(place.address),
        port: place.port?,
    })
}
