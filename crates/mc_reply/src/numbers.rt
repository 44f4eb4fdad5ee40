//! Line ends with numbers.

use std::marker::Model;

/// Bytes of the longest text: three numbers of up to 20 digits with a space before each, and CR LF.
const LONGEST: usize = 65;

/// The end of a line, built from its last byte to its first: numbers, and then CR LF.
///
/// Contracts see the text.
#[derive(Drop)]
pub struct Numbers {
    bytes: [u8; LONGEST],
    start: usize,
}

impl Model for Numbers {
    ghost use Rattle.std.specs.Prelude.{◌≤◌, List, ℕ, drop};

    ghost Value = { List ℕ };

    ghost view = { λ n. drop n.start n.bytes };

    ghost invariant = { λ n. n.start ≤ 65 };
}

impl Numbers {
    ghost use Rattle.std.specs.Prelude.{◌≡◌, ◌≤◌, ◌+◌, ◌++◌, length, codes, decimal};
    ghost use Rattle.mc_reply.specs.Texts.{numbers_text};

    /// Returns a line end without numbers.
    pub fn new() -> Numbers
        ensures { result ≡ codes "\r\n" }
    {
        let mut bytes = [0; LONGEST];
        bytes[LONGEST - 2] = b'\r';
        bytes[LONGEST - 1] = b'\n';
        Numbers {
            bytes,
            start: LONGEST - 2,
        }
    }

    /// Returns the end of a hit's first line: its flags, the length of its block and, if it is
    /// asked for, its unique number.
    #[inline]
    pub fn of_hit(flags: u32, block_len: usize, unique: u64, with_unique: bool) -> Numbers
        ensures { result ≡ numbers_text with_unique flags unique block_len }
    {
        let mut numbers = Numbers::new();
        if with_unique {
            numbers.put_word(unique);
        }
        numbers.put_word(block_len as u64);
        numbers.put_word(flags as u64);
        numbers
    }

    /// Puts the digits of a number before the text.
    pub fn put_number(&mut self, number: u64)
        requires room { length self.old + 20 ≤ 65 }
        ensures text { self.new ≡ decimal number ++ self.old }
        ensures length { length self.new ≤ length self.old + 20 }
    {
        self.start = itoa::write_digits(number, &mut self.bytes, self.start);
    }

    /// Puts a space and the digits of a number before the text.
    pub fn put_word(&mut self, number: u64)
        requires room { length self.old + 21 ≤ 65 }
        ensures text { self.new ≡ codes " " ++ decimal number ++ self.old }
        ensures length { length self.new ≤ length self.old + 21 }
    {
        self.put_number(number);
        self.put_space();
    }

    /// Puts a space before the text.
    fn put_space(&mut self)
        requires room { length self.old + 1 ≤ 65 }
        ensures { self.new ≡ codes " " ++ self.old }
    {
        self.start -= 1;
        self.bytes[self.start] = b' ';
    }

    /// Lends the text.
    pub fn as_slice(&self) -> &[u8]
        ensures { result.now ≡ self.now }
    {
        self.bytes.split_at(self.start).1
    }
}
