//! The content of the table's slots.
use crate::boxed::Boxed;
use mc_shelf::{Desk, Shelf};

/// The content of a bay: one of the shelves, or the desk that they share.
#[derive(Drop)]
pub enum Bay {
    Shelf(Boxed<Shelf>),
    Desk(Boxed<Desk>),
}
