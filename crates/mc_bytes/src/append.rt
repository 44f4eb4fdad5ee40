//! Texts that append themselves to a buffer.

use std::alloc::AllocError;

/// A text that can append itself to a buffer.
pub trait Append {
    ghost use Rattle.std.specs.Prelude.{◌≡◌, ◌++◌, ℕ, List, OnOk, OnErr};

    /// The text may be appended.
    ghost can_append: { Self → Type 0 };
    /// The bytes of the text.
    ghost bytes: { Self → List ℕ };

    /// Appends its bytes to a buffer. An error leaves the buffer unchanged.
    fn append_to(&self, buffer: &mut Vec<u8>) -> Result<(), AllocError>
        requires { can_append self.now }
        ensures ok { OnOk result (buffer.new.items ≡ buffer.old.items ++ bytes self.now) }
        ensures err { OnErr result (buffer.new.items ≡ buffer.old.items) };
}
