//! Bits of hop words.

ghost use Rattle.std.specs.Prelude.{◌≡◌, ◌≢◌, ℕ, ◌<◌};
ghost use Rattle.std.specs.Int.{bit_at};

/// Returns the place of the lowest set bit of a hop word, 0 to 31.
pub fn lowest(word: u32) -> u32
    requires { word ≢ 0 }
    ensures inside { result < 32 }
    ensures set { bit_at word result ≡ 1 }
    ensures lowest { (j : ℕ) → j < result → bit_at word j ≡ 0 }
{
    word.trailing_zeros()
}

/// Sets a bit of a word.
pub(crate) fn with_bit(word: u32, bit: u32) -> u32
    requires { bit < 32 }
    ensures set { bit_at result bit ≡ 1 }
    ensures others { (j : ℕ) → j < 32 → j ≢ bit → bit_at result j ≡ bit_at word j }
{
    word | 1 << bit
}

/// Clears a bit of a word.
pub(crate) fn without_bit(word: u32, bit: u32) -> u32
    requires { bit < 32 }
    ensures clear { bit_at result bit ≡ 0 }
    ensures others { (j : ℕ) → j < 32 → j ≢ bit → bit_at result j ≡ bit_at word j }
{
    word & !(1 << bit)
}
