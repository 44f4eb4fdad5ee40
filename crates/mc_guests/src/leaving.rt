//! Links that are let go.
//!
//! A worker lets each link go once, as its guest left or it was refused. Its number of such links
//! shows that: each call of `let_go` takes a link and this number, and returns the next number,
//! under a relation that nothing else gives. A call `close` of `Links` doesn't serve: a default
//! body that drops the link can't keep a clause on which links came back.
ghost use Rattle.std.specs.Prelude.{◌≡◌, ◌+◌, ◌%◌, ◌^◌};

use mc_links::Link;

/// A link that is let go once. Each link that may be dropped is one.
///
/// Contracts know nothing of `leaves` but what `let_go` ensures. So guests that keep a link, or
/// forget it, prove nothing.
pub trait LeavingLink: Link {
    ghost use Rattle.std.specs.Prelude.{ℕ};
    ghost use Rattle.mc_guests.specs.Links.{LinkState};

    /// A link in this state was let go, and these numbers stood before and behind it.
    ghost leaves: { LinkState → (before after : ℕ) → Type 0 };

    /// Drops the link. Returns the number of links that were let go, modulo 2^64: one more.
    fn let_go(self, before: u64) -> u64
        ensures { leaves (Self.Link.shown self) before result };
}

impl<L: Link + Drop> LeavingLink for L {
    ghost leaves = { λ link before after. after ≡ (before + 1) % 2 ^ 64 };

    fn let_go(self, before: u64) -> u64 {
        before.wrapping_add(1)
    }
}
