//! What telemetry asks of the store.

use mc_metrics::TablesReading;
use mc_sizes::{Account, Class};
use std::sync::Wait;

/// A store that reports what it holds.
pub trait StoreStats {
    /// Returns the number of shelves.
    fn shelves(&self) -> u32;

    /// Returns the totals of the tables of all shelves. One shelf at a time is held.
    fn tables<R: Wait>(&mut self, rt: &R) -> TablesReading;

    /// Returns how many pages a class of chunks has, and how many of its chunks hold items.
    fn account<R: Wait>(&mut self, rt: &R, class: Class) -> Account;
}
