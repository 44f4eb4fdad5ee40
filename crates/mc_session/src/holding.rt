//! What a session holds.

/// The bytes that a session holds.
#[derive(Clone, Copy, Debug, PartialEq, Eq)]
pub struct Holding {
    /// The bytes reserved for unread bytes, and for output that isn't lent.
    pub own: usize,
    /// The bytes of output that aren't written and are lent.
    pub lent: usize,
    /// The bytes of memory that has left the store and that its lent output keeps, each memory
    /// divided by the number of its owners.
    pub left: usize,
}
