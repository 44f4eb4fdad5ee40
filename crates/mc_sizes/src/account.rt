//! What was handed out of a class.

/// The pages of a class, and how many of their chunks are out.
#[derive(Clone, Copy, Debug, PartialEq, Eq)]
pub struct Account {
    /// The number of pages that went to the class.
    pub pages: u32,
    /// The number of their chunks that are out.
    pub out: u32,
}
