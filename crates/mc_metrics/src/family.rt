//! The metrics of a page, each a row of a table.

use crate::reading::{Figure, ProcessFigure, SlabFigure};

/// Whether a number only grows.
#[derive(Clone, Copy)]
pub enum Kind {
    Counter,
    Gauge,
}

/// The samples of a family.
#[derive(Clone, Copy)]
pub enum Samples {
    /// One sample without labels.
    One(Figure),
    /// One sample for each of the family's labels.
    Each,
    /// One sample for each class of chunks that has a page.
    Slabs(SlabFigure),
    /// One sample for each class of chunks: its refused steps.
    Refused,
    /// One sample without labels, if the system reports the number.
    Process(ProcessFigure),
    /// The same in hundredths, as a number with two decimals.
    Hundredths(ProcessFigure),
    /// One sample that is 1 and has numbers as labels: the text before each, and the number.
    Numbers,
}

/// Labels, each with its number.
pub type Labels = &'static [(&'static str, Figure)];

/// A family of samples: its type, its name, its help, its samples, and their labels.
///
/// A tuple, because definitions read no constant of a struct that borrows.
pub type Family = (Kind, &'static str, &'static str, Samples, Labels);
